//! Signatures.

ghost use Rattle.std.specs.Prelude.{◌≡◌, ◌⊎◌, IfOk, IfErr, Some};
ghost use Rattle.std.specs.String.{string_bytes};
ghost use Rattle.base64.specs.GeneralPurpose.{IsBytes};
ghost use Rattle.warg_crypto.specs.Keys.{signature_of};
ghost use Rattle.warg_crypto.specs.NamedBytes.{HasName, IsName, named_bytes_text};
ghost use Rattle.warg_crypto.specs.declared.signing.error.SignatureParseError.TheVariants as fault;

use crate::signing::algorithm_bytes::AlgorithmBytes;
use crate::signing::error::SignatureParseError;
use std::alloc::{AllocError, Global};
use std::fmt;
use std::hash::{Hash, Hasher};
use std::marker::Model;

/// A signature: the name of its algorithm, and bytes.
#[derive(Drop)]
pub struct Signature {
    named_bytes: AlgorithmBytes,
}

impl Model for Signature {
    ghost use Rattle.warg_crypto.specs.NamedBytes.{NamedBytes};

    ghost Value = { NamedBytes };

    ghost view = { λ k. k.named_bytes };
}

impl Signature {
    /// The signature of these bytes under the algorithm's name, which is not empty and has no colon
    /// ([`is_algorithm_name`](crate::signing::is_algorithm_name) tells).
    pub fn new(algorithm: String, bytes: Vec<u8>) -> Signature
        requires { IsName (string_bytes algorithm) }
        ensures name { result.name ≡ string_bytes algorithm }
        ensures bytes { result.bytes ≡ bytes.items }
    {
        Signature {
            named_bytes: AlgorithmBytes::new(algorithm, bytes),
        }
    }

    /// The name of the signature's algorithm.
    pub fn algorithm(&self) -> &str
        ensures value { result.now ≡ self.now.name }
        ensures named { IsName self.now.name }
    {
        self.named_bytes.name()
    }

    /// The signature's bytes.
    pub fn bytes(&self) -> &[u8]
        ensures value { result.now ≡ self.now.bytes }
        ensures are_bytes { IsBytes self.now.bytes }
    {
        self.named_bytes.bytes()
    }

    /// The signature that a text says: a name, a colon, and bytes in base64 (RFC 4648, with padding). `MissingColon` and
    /// `EmptyAlgorithm` are told before any memory is taken.
    pub fn parse(alloc: Global, text: &str) -> Result<Signature, SignatureParseError>
        ensures ok { IfOk result (λ k. signature_of text.now ≡ Ok k) }
        ensures err { IfErr result (λ e. (e ≡ fault.OutOfMemory) ⊎
            (signature_of text.now ≡ Err e)) }
        ensures memory { IfErr result (λ e. e ≡ fault.OutOfMemory → HasName text.now) }
    {
        let named_bytes = AlgorithmBytes::parse(alloc, text)?;
        Ok(Signature { named_bytes })
    }

    /// The text of the signature: its name, a colon, and its bytes in base64 (RFC 4648, with padding).
    pub fn to_text(&self, alloc: Global) -> Result<String, AllocError>
        ensures { IfOk result (λ text. string_bytes text ≡ named_bytes_text self.now) }
    {
        self.named_bytes.to_text(alloc)
    }

    /// A copy.
    pub fn try_clone(&self) -> Result<Signature, AllocError>
        ensures { IfOk result (λ k. k ≡ self.now) }
    {
        self.clone()
    }
}

impl fmt::Display for Signature {
    ghost output = { λ k. Some (named_bytes_text k) };

    ghost styled_output = { λ k _. Some (named_bytes_text k) };

    fn fmt<W: fmt::Write>(&self, f: &mut fmt::Formatter<W>) -> fmt::Result {
        fmt::Display::fmt(&self.named_bytes, f)
    }
}

impl fmt::Debug for Signature {
    ghost use Rattle.std.specs.Fmt.{WritesStyledOnOk};

    ghost debug_output = { λ k. Some (named_bytes_text k) };

    fn fmt<W: fmt::Write>(&self, f: &mut fmt::Formatter<W>) -> fmt::Result
        ensures styled { WritesStyledOnOk W.write_str_gives f.old result (named_bytes_text self.now)
            f.new }
    {
        fmt::Display::fmt(self, f)
    }
}

impl PartialEq for Signature {
    ghost use Rattle.std.specs.Cmp.{partial_equiv_from_equiv};
    ghost use Rattle.warg_crypto.specs.NamedBytes.{same_named_bytes};
    ghost use Rattle.warg_crypto.specs.SameLaws.{same_named_bytes_equiv};

    ghost eq = { same_named_bytes };

    ghost laws = { partial_equiv_from_equiv same_named_bytes_equiv };

    fn eq(&self, other: &Signature) -> bool {
        self.named_bytes == other.named_bytes
    }
}

impl Eq for Signature {
    ghost use Rattle.warg_crypto.specs.SameLaws.{same_named_bytes_equiv};

    ghost laws = { same_named_bytes_equiv };
}

impl Hash for Signature {
    ghost use Rattle.warg_crypto.specs.SameNamedBytes.{named_bytes_hash_input};
    ghost use Rattle.warg_crypto.specs.SameLaws.{named_bytes_hash_input-same_named_bytes};

    ghost hash_input = { named_bytes_hash_input };

    ghost respects_eq = { named_bytes_hash_input-same_named_bytes };

    fn hash<H: Hasher>(&self, state: &mut H) {
        self.named_bytes.hash(state);
    }
}

impl Clone for Signature {
    ghost is_clone = { λ a b. b ≡ a };

    fn clone(&self) -> Result<Signature, AllocError> {
        Ok(Signature {
            named_bytes: self.named_bytes.clone()?,
        })
    }
}

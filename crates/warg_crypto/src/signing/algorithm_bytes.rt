//! Bytes under the name of an algorithm, and their text.

ghost use Rattle.std.specs.Prelude.{◌≡◌, ◌+◌, ◌*◌, ◌/◌, ◌≤◌, ◌⊎◌, length, IfOk, IfErr, IsTrue, ◌↔◌, Some};
ghost use Rattle.std.specs.List.{list_any};
ghost use Rattle.std.specs.String.{string_bytes};
ghost use Rattle.base64.specs.GeneralPurpose.{IsBytes};
ghost use Rattle.warg_crypto.specs.HashText.{is_colon};
ghost use Rattle.warg_crypto.specs.NamedBytes.{NamedBytes, HasName, IsName, named_bytes_of, named_bytes_text};
ghost use Rattle.warg_crypto.specs.declared.signing.algorithm_bytes.NamedBytesError.TheVariants as fault;

use crate::base64_text::write_base64;
use crate::ranges::byte_range;
use base64::DecodeAllocError;
use base64::engine::general_purpose::STANDARD;
use std::alloc::{AllocError, Global};
use std::fmt;
use std::hash::{Hash, Hasher};
use std::marker::Model;
use thiserror::Error;

/// Bytes under the name of an algorithm.
#[derive(Debug, Drop)]
pub struct AlgorithmBytes {
    name: String,
    bytes: Vec<u8>,
}

impl Model for AlgorithmBytes {
    ghost use Rattle.std.specs.String.{string_bytes};
    ghost use Rattle.warg_crypto.specs.NamedBytes.{NamedBytes, IsName};

    ghost Value = { NamedBytes };

    ghost view = { λ t. record { name = string_bytes t.name; bytes = t.bytes.items } };

    ghost invariant = { λ t. IsName (string_bytes t.name) };
}

/// Why a text is none of bytes under a name.
#[derive(Clone, Copy, Debug, PartialEq, Eq, Error)]
pub enum NamedBytesError {
    /// No colon stands in the text.
    #[error("MissingColon")]
    MissingColon,
    /// Nothing stands before the first colon.
    #[error("EmptyAlgorithm")]
    EmptyAlgorithm,
    /// What stands behind the first colon is no base64.
    #[error("BadBase64")]
    BadBase64,
    /// There was no memory.
    #[error("OutOfMemory")]
    OutOfMemory,
}

// Whether a colon stands in the text.
fn has_colon(text: &[u8]) -> bool
    ensures { result ≡ list_any is_colon text.now }
{
    text.iter().any(|byte| *byte == b':')
}

/// Whether the text may name an algorithm: it is not empty and has no colon. What
/// [`PublicKey::new`](crate::signing::PublicKey::new) and
/// [`Signature::new`](crate::signing::Signature::new) ask of a name.
pub fn is_algorithm_name(text: &str) -> bool
    ensures { IsTrue result ↔ IsName text.now }
{
    !text.is_empty() && !has_colon(text.as_bytes())
}

impl AlgorithmBytes {
    pub fn new(name: String, bytes: Vec<u8>) -> AlgorithmBytes
        requires { IsName (string_bytes name) }
        ensures name { result.name ≡ string_bytes name }
        ensures bytes { result.bytes ≡ bytes.items }
    {
        AlgorithmBytes { name, bytes }
    }

    pub fn name(&self) -> &str
        ensures value { result.now ≡ self.now.name }
        ensures named { IsName self.now.name }
    {
        self.name.as_str()
    }

    pub fn bytes(&self) -> &[u8]
        ensures value { result.now ≡ self.now.bytes }
        ensures are_bytes { IsBytes self.now.bytes }
    {
        let bytes = self.bytes.as_slice();
        byte_range(bytes);
        bytes
    }

    /// How many bytes the text has at most.
    fn text_room(&self) -> usize
        ensures { result ≤ length self.now.name + 1 + (length self.now.bytes / 3 + 1) * 4 }
    {
        let digits = (self.bytes.len() / 3).saturating_add(1).saturating_mul(4);
        self.name.len().saturating_add(1).saturating_add(digits)
    }

    /// The name, a colon, and the bytes in base64.
    pub fn to_text(&self, alloc: Global) -> Result<String, AllocError>
        ensures { IfOk result (λ text. string_bytes text ≡ named_bytes_text self.now) }
    {
        let mut text = String::with_capacity(alloc, self.text_room())?;
        text.push_str(self.name.as_str())?;
        text.push_str(":")?;
        STANDARD.encode_string(self.bytes.as_slice(), &mut text)?;
        Ok(text)
    }

    pub fn parse(alloc: Global, text: &str) -> Result<AlgorithmBytes, NamedBytesError>
        ensures ok { IfOk result (λ t. named_bytes_of text.now ≡ Ok t) }
        ensures err { IfErr result (λ e. (e ≡ fault.OutOfMemory) ⊎
            (named_bytes_of text.now ≡ Err e)) }
        ensures memory { IfErr result (λ e. e ≡ fault.OutOfMemory → HasName text.now) }
    {
        let Some((name, rest)) = text.split_once(':') else {
            return Err(NamedBytesError::MissingColon);
        };
        if name.is_empty() {
            return Err(NamedBytesError::EmptyAlgorithm);
        }
        let bytes = match STANDARD.decode(alloc, rest.as_bytes()) {
            Ok(bytes) => bytes,
            Err(DecodeAllocError::DecodeError(_)) => return Err(NamedBytesError::BadBase64),
            Err(DecodeAllocError::OutOfMemory) => return Err(NamedBytesError::OutOfMemory),
        };
        let Ok(name) = String::from_str(alloc, name) else {
            return Err(NamedBytesError::OutOfMemory);
        };
        Ok(AlgorithmBytes { name, bytes })
    }
}

impl fmt::Display for AlgorithmBytes {
    ghost output = { λ t. Some (named_bytes_text t) };

    ghost styled_output = { λ t _. Some (named_bytes_text t) };

    fn fmt<W: fmt::Write>(&self, f: &mut fmt::Formatter<W>) -> fmt::Result {
        f.write_str(self.name.as_str())?;
        f.write_str(":")?;
        write_base64(self.bytes.as_slice(), f)
    }
}

impl Hash for AlgorithmBytes {
    ghost use Rattle.warg_crypto.specs.SameNamedBytes.{named_bytes_hash_input};
    ghost use Rattle.warg_crypto.specs.SameLaws.{named_bytes_hash_input-same_named_bytes};

    ghost hash_input = { named_bytes_hash_input };

    ghost respects_eq = { named_bytes_hash_input-same_named_bytes };

    fn hash<H: Hasher>(&self, state: &mut H) {
        self.name.as_str().hash(state);
        self.bytes.as_slice().hash(state);
    }
}

impl PartialEq for AlgorithmBytes {
    ghost use Rattle.std.specs.Cmp.{partial_equiv_from_equiv};
    ghost use Rattle.warg_crypto.specs.NamedBytes.{same_named_bytes};
    ghost use Rattle.warg_crypto.specs.SameLaws.{same_named_bytes_equiv};

    ghost eq = { same_named_bytes };

    ghost laws = { partial_equiv_from_equiv same_named_bytes_equiv };

    fn eq(&self, other: &AlgorithmBytes) -> bool {
        self.name.as_str() == other.name.as_str() && self.bytes.as_slice() == other.bytes.as_slice()
    }
}

impl Eq for AlgorithmBytes {
    ghost use Rattle.warg_crypto.specs.SameLaws.{same_named_bytes_equiv};

    ghost laws = { same_named_bytes_equiv };
}

impl Clone for AlgorithmBytes {
    ghost is_clone = { λ a b. b ≡ a };

    fn clone(&self) -> Result<AlgorithmBytes, AllocError> {
        Ok(AlgorithmBytes {
            name: self.name.clone()?,
            bytes: self.bytes.clone()?,
        })
    }
}

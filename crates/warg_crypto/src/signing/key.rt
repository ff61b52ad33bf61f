//! Keys and their ids.

ghost use Rattle.std.specs.Prelude.{◌≡◌, ◌⊎◌, IfOk, IfErr, Some};
ghost use Rattle.std.specs.String.{string_bytes};
ghost use Rattle.base64.specs.GeneralPurpose.{IsBytes};
ghost use Rattle.warg_crypto.specs.Keys.{public_key_of};
ghost use Rattle.warg_crypto.specs.NamedBytes.{HasName, IsName, named_bytes_text, fingerprint_of};
ghost use Rattle.warg_crypto.specs.declared.signing.error.KeyParseError.TheVariants as fault;

use crate::hash::HashAlgorithm;
use crate::signing::algorithm_bytes::AlgorithmBytes;
use crate::signing::error::KeyParseError;
use std::alloc::{AllocError, Global};
use std::cmp::Ordering;
use std::fmt;
use std::hash::{Hash, Hasher};
use std::marker::Model;
use std::sync::ArcStr;

/// The id of a key: any text. Ids are ordered by the bytes of their texts. An id that
/// [`share`](KeyID::share) gave shares its text with each copy of it.
#[derive(Drop)]
pub struct KeyID {
    text: KeyText,
}

impl Model for KeyID {
    ghost use Rattle.std.specs.Prelude.{List, ℕ};
    ghost use Rattle.warg_crypto.specs.KeyTexts.{key_text_bytes};

    ghost Value = { List ℕ };

    ghost view = { λ k. key_text_bytes k.text };
}

/// The text of a key's id: its own, or one that copies share.
#[derive(Drop)]
enum KeyText {
    Own(String),
    Shared(ArcStr),
}

impl KeyID {
    /// The text.
    pub fn as_str(&self) -> &str
        ensures { result.now ≡ self.now }
    {
        match &self.text {
            KeyText::Own(text) => text.as_str(),
            KeyText::Shared(text) => text.as_str(),
        }
    }

    /// A copy.
    pub fn try_clone(&self) -> Result<KeyID, AllocError>
        ensures { IfOk result (λ k. k ≡ self.now) }
    {
        self.clone()
    }

    /// The same id, whose copies share its text from now on.
    pub fn share(self) -> Result<KeyID, AllocError>
        ensures { IfOk result (λ k. k ≡ self) }
    {
        let text = match self.text {
            KeyText::Own(text) => ArcStr::from_string(text)?,
            KeyText::Shared(text) => text,
        };
        Ok(KeyID {
            text: KeyText::Shared(text),
        })
    }
}

impl From<String> for KeyID {
    ghost from_gives = { λ s k. k ≡ string_bytes s };

    fn from(text: String) -> KeyID {
        KeyID {
            text: KeyText::Own(text),
        }
    }
}

impl fmt::Display for KeyID {
    ghost output = { λ k. Some k };

    ghost styled_output = { λ k _. Some k };

    fn fmt<W: fmt::Write>(&self, f: &mut fmt::Formatter<W>) -> fmt::Result {
        f.write_str(self.as_str())
    }
}

impl fmt::Debug for KeyID {
    ghost use Rattle.std.specs.Fmt.{WritesStyledOnOk};

    ghost debug_output = { λ k. Some k };

    fn fmt<W: fmt::Write>(&self, f: &mut fmt::Formatter<W>) -> fmt::Result
        ensures styled { WritesStyledOnOk W.write_str_gives f.old result self.now f.new }
    {
        fmt::Display::fmt(self, f)
    }
}

impl PartialEq for KeyID {
    ghost use Rattle.std.specs.Str.{bytes_eq};
    ghost use Rattle.std.specs.Cmp.{partial_equiv_from_equiv};
    ghost use Rattle.std.specs.Cmp.Lexicographic.{nat_list_eq_equiv};

    ghost eq = { bytes_eq };

    ghost laws = { partial_equiv_from_equiv nat_list_eq_equiv };

    fn eq(&self, other: &KeyID) -> bool {
        self.as_str() == other.as_str()
    }
}

impl Eq for KeyID {
    ghost use Rattle.std.specs.Cmp.Lexicographic.{nat_list_eq_equiv};

    ghost laws = { nat_list_eq_equiv };
}

impl PartialOrd for KeyID {
    ghost use Rattle.std.specs.Cmp.Lexicographic.{slice_cmp, texts_po};
    ghost use Rattle.std.specs.Ordering.{nat_cmp};

    ghost partial_cmp = { λ a b. Some (slice_cmp nat_cmp a b) };

    ghost laws = { texts_po };

    fn partial_cmp(&self, other: &KeyID) -> Option<Ordering> {
        Some(self.cmp(other))
    }
}

impl Ord for KeyID {
    ghost use Rattle.std.specs.Cmp.Lexicographic.{slice_cmp, nat_list_cmp_total, texts_ties};
    ghost use Rattle.std.specs.Ordering.{nat_cmp};
    ghost use Rattle.std.proofs.Common.{refl};

    ghost cmp = { slice_cmp nat_cmp };

    ghost total = { nat_list_cmp_total };

    ghost matches_partial_cmp = { λ a b. refl };

    ghost matches_eq = { texts_ties };

    fn cmp(&self, other: &KeyID) -> Ordering {
        self.as_str().cmp(other.as_str())
    }
}

impl Hash for KeyID {
    ghost use Rattle.std.proofs.Common.{rules};
    ghost use Rattle.std.specs.Hash as fed;
    ghost use Rattle.std.specs.Cmp.Rules.{hashing};

    ghost hash_input = { fed.str };

    ghost respects_eq = { Prim.search (hashing, rules) };

    fn hash<H: Hasher>(&self, state: &mut H) {
        self.as_str().hash(state);
    }
}

impl Clone for KeyID {
    ghost is_clone = { λ a b. b ≡ a };

    fn clone(&self) -> Result<KeyID, AllocError> {
        let text = match &self.text {
            KeyText::Own(text) => KeyText::Own(text.clone()?),
            KeyText::Shared(text) => KeyText::Shared(text.clone()?),
        };
        Ok(KeyID { text })
    }
}

/// A public key: the name of its algorithm, and bytes.
#[derive(Drop)]
pub struct PublicKey {
    named_bytes: AlgorithmBytes,
}

impl Model for PublicKey {
    ghost use Rattle.warg_crypto.specs.NamedBytes.{NamedBytes};

    ghost Value = { NamedBytes };

    ghost view = { λ k. k.named_bytes };
}

impl PublicKey {
    /// The key of these bytes under the algorithm's name, which is not empty and has no colon
    /// ([`is_algorithm_name`](crate::signing::is_algorithm_name) tells).
    pub fn new(algorithm: String, bytes: Vec<u8>) -> PublicKey
        requires { IsName (string_bytes algorithm) }
        ensures name { result.name ≡ string_bytes algorithm }
        ensures bytes { result.bytes ≡ bytes.items }
    {
        PublicKey {
            named_bytes: AlgorithmBytes::new(algorithm, bytes),
        }
    }

    /// The name of the key's algorithm.
    pub fn algorithm(&self) -> &str
        ensures value { result.now ≡ self.now.name }
        ensures named { IsName self.now.name }
    {
        self.named_bytes.name()
    }

    /// The key's bytes.
    pub fn bytes(&self) -> &[u8]
        ensures value { result.now ≡ self.now.bytes }
        ensures are_bytes { IsBytes self.now.bytes }
    {
        self.named_bytes.bytes()
    }

    /// The key that a text says: a name, a colon, and bytes in base64 (RFC 4648, with padding). `MissingColon` and
    /// `EmptyAlgorithm` are told before any memory is taken.
    pub fn parse(alloc: Global, text: &str) -> Result<PublicKey, KeyParseError>
        ensures ok { IfOk result (λ k. public_key_of text.now ≡ Ok k) }
        ensures err { IfErr result (λ e. (e ≡ fault.OutOfMemory) ⊎
            (public_key_of text.now ≡ Err e)) }
        ensures memory { IfErr result (λ e. e ≡ fault.OutOfMemory → HasName text.now) }
    {
        let named_bytes = AlgorithmBytes::parse(alloc, text)?;
        Ok(PublicKey { named_bytes })
    }

    /// The text of the key: its name, a colon, and its bytes in base64 (RFC 4648, with padding).
    pub fn to_text(&self, alloc: Global) -> Result<String, AllocError>
        ensures { IfOk result (λ text. string_bytes text ≡ named_bytes_text self.now) }
    {
        self.named_bytes.to_text(alloc)
    }

    /// A copy.
    pub fn try_clone(&self) -> Result<PublicKey, AllocError>
        ensures { IfOk result (λ k. k ≡ self.now) }
    {
        self.clone()
    }

    /// The key's id: the text of the SHA-256 hash of the key's text.
    #[tactic(auto, unfolding(crate::specs::NamedBytes::fingerprint_of))]
    pub fn fingerprint(&self, alloc: Global) -> Result<KeyID, AllocError>
        ensures { IfOk result (λ id. id ≡ fingerprint_of self.now) }
    {
        let text = self.to_text(alloc)?;
        let hash = HashAlgorithm::Sha256.digest(text.as_bytes());
        Ok(KeyID::from(hash.to_text(alloc)?))
    }
}

impl fmt::Display for PublicKey {
    ghost output = { λ k. Some (named_bytes_text k) };

    ghost styled_output = { λ k _. Some (named_bytes_text k) };

    fn fmt<W: fmt::Write>(&self, f: &mut fmt::Formatter<W>) -> fmt::Result {
        fmt::Display::fmt(&self.named_bytes, f)
    }
}

impl fmt::Debug for PublicKey {
    ghost use Rattle.std.specs.Fmt.{WritesStyledOnOk};

    ghost debug_output = { λ k. Some (named_bytes_text k) };

    fn fmt<W: fmt::Write>(&self, f: &mut fmt::Formatter<W>) -> fmt::Result
        ensures styled { WritesStyledOnOk W.write_str_gives f.old result (named_bytes_text self.now)
            f.new }
    {
        fmt::Display::fmt(self, f)
    }
}

impl PartialEq for PublicKey {
    ghost use Rattle.std.specs.Cmp.{partial_equiv_from_equiv};
    ghost use Rattle.warg_crypto.specs.NamedBytes.{same_named_bytes};
    ghost use Rattle.warg_crypto.specs.SameLaws.{same_named_bytes_equiv};

    ghost eq = { same_named_bytes };

    ghost laws = { partial_equiv_from_equiv same_named_bytes_equiv };

    fn eq(&self, other: &PublicKey) -> bool {
        self.named_bytes == other.named_bytes
    }
}

impl Eq for PublicKey {
    ghost use Rattle.warg_crypto.specs.SameLaws.{same_named_bytes_equiv};

    ghost laws = { same_named_bytes_equiv };
}

impl Hash for PublicKey {
    ghost use Rattle.warg_crypto.specs.SameNamedBytes.{named_bytes_hash_input};
    ghost use Rattle.warg_crypto.specs.SameLaws.{named_bytes_hash_input-same_named_bytes};

    ghost hash_input = { named_bytes_hash_input };

    ghost respects_eq = { named_bytes_hash_input-same_named_bytes };

    fn hash<H: Hasher>(&self, state: &mut H) {
        self.named_bytes.hash(state);
    }
}

impl Clone for PublicKey {
    ghost is_clone = { λ a b. b ≡ a };

    fn clone(&self) -> Result<PublicKey, AllocError> {
        Ok(PublicKey {
            named_bytes: self.named_bytes.clone()?,
        })
    }
}

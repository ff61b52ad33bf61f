//! Claims and their lines.

ghost use Rattle.std.specs.Prelude.{◌≡◌, ◌⊎◌, IfOk, IfErr, MatchOption, None, Some, string_bytes};
ghost use Rattle.hex.specs.Hex.{IsBytes, decode_of};
ghost use Rattle.warg_printable.specs.Back.{unprintable};
ghost use Rattle.warg_claims.specs.Verified.Claims.{claim_text};
ghost use Rattle.warg_claims.specs.Verified.Lines.{claim_of, claim_of_parts, printed_key_of, printed_signature_of};
ghost use Rattle.warg_claims.specs.Verified.Parts.{claim_in};
ghost use Rattle.warg_claims.specs.declared.verified.error.ClaimParseError.TheVariants as fault;

use crate::verified::error::ClaimParseError;
use crate::verified::named::write_named;
use crate::verified::parts::Parts;
use crate::verified::shown::write_hex;
use std::alloc::{AllocError, Global};
use std::cmp::Ordering;
use std::fmt;
use std::hash::{Hash, Hasher};
use std::marker::Model;
use warg_crypto::laws::byte_range;
use warg_crypto::signing::{PublicKey, Signature};
use warg_printable::unprinted;

/// A key, a message, and a signature that is said to belong to the message under the key. Its line is
/// the key's text, the message in hex, and the signature's text, with a space between; both texts are printed words.
#[derive(Drop)]
pub struct Claim {
    key: PublicKey,
    message: Vec<u8>,
    signature: Signature,
}

impl Model for Claim {
    ghost use Rattle.warg_claims.specs.Verified.Claims.{ClaimData};

    ghost Value = { ClaimData };

    ghost view = { λ c. record { key = c.key; message = c.message.items; signature = c.signature } };
}

// The three parts of a line, cut at its first two spaces.
fn cut(line: &str) -> Option<(&str, &str, &str)>
    ensures { MatchOption result (claim_of line.now ≡ Err fault.MissingPart)
        (λ p. claim_of line.now ≡ claim_of_parts (printed_key_of p.0.now) (decode_of p.1.now)
        (printed_signature_of p.2.now)) }
{
    let Some((key, rest)) = line.split_once(' ') else {
        return None;
    };
    let Some((message, signature)) = rest.split_once(' ') else {
        return None;
    };
    Some((key, message, signature))
}

// The text that a printed one stands for.
fn unprinted_part(alloc: Global, part: &str) -> Result<String, ClaimParseError>
    ensures ok { IfOk result (λ text. unprintable part.now ≡ Some (string_bytes text)) }
    ensures err { IfErr result (λ e. (e ≡ fault.OutOfMemory) ⊎
        ((e ≡ fault.BadEscape) × (unprintable part.now ≡ None))) }
{
    match unprinted(alloc, part)? {
        Some(text) => Ok(text),
        None => Err(ClaimParseError::BadEscape),
    }
}

// The key whose printed text this is.
#[tactic(auto, using(crate::proofs::VerifiedLemmas::PartLemmas::key_said, crate::proofs::VerifiedLemmas::PartLemmas::key_unread, crate::proofs::VerifiedLemmas::PartLemmas::key_bad))]
fn printed_key(alloc: Global, part: &str) -> Result<PublicKey, ClaimParseError>
    ensures ok { IfOk result (λ key. printed_key_of part.now ≡ Ok key) }
    ensures err { IfErr result (λ e. (e ≡ fault.OutOfMemory) ⊎ (printed_key_of part.now ≡ Err e)) }
{
    let text = unprinted_part(alloc, part)?;
    let key = PublicKey::parse(alloc, text.as_str())?;
    Ok(key)
}

// The signature whose printed text this is.
#[tactic(auto, using(crate::proofs::VerifiedLemmas::PartLemmas::signature_said, crate::proofs::VerifiedLemmas::PartLemmas::signature_unread, crate::proofs::VerifiedLemmas::PartLemmas::signature_bad))]
fn printed_signature(alloc: Global, part: &str) -> Result<Signature, ClaimParseError>
    ensures ok { IfOk result (λ signature. printed_signature_of part.now ≡ Ok signature) }
    ensures err { IfErr result (λ e. (e ≡ fault.OutOfMemory) ⊎
        (printed_signature_of part.now ≡ Err e)) }
{
    let text = unprinted_part(alloc, part)?;
    let signature = Signature::parse(alloc, text.as_str())?;
    Ok(signature)
}

impl Claim {
    /// The claim that the signature belongs to the message under the key.
    pub fn new(key: PublicKey, message: Vec<u8>, signature: Signature) -> Claim
        ensures { result ≡ record { key = key; message = message.items; signature = signature } }
    {
        Claim {
            key,
            message,
            signature,
        }
    }

    /// The key.
    pub fn key(&self) -> &PublicKey
        ensures { result.now ≡ self.now.key }
    {
        &self.key
    }

    /// What is signed.
    pub fn message(&self) -> &[u8]
        ensures value { result.now ≡ self.now.message }
        ensures are_bytes { IsBytes self.now.message }
    {
        let message = self.message.as_slice();
        byte_range(message);
        message
    }

    /// The signature.
    pub fn signature(&self) -> &Signature
        ensures { result.now ≡ self.now.signature }
    {
        &self.signature
    }

    /// The parts, where they stand.
    pub(crate) fn parts(&self) -> Parts<'_>
        ensures { claim_in result ≡ self.now }
    {
        Parts {
            key: &self.key,
            message: self.message.as_slice(),
            signature: &self.signature,
        }
    }

    /// The claim that a line says: a key's printed text with no space in it, a message in hex digits of either case,
    /// and a signature's printed text, with a space between.
    pub fn parse(alloc: Global, line: &str) -> Result<Claim, ClaimParseError>
        ensures ok { IfOk result (λ c. claim_of line.now ≡ Ok c) }
        ensures err { IfErr result (λ e. (e ≡ fault.OutOfMemory) ⊎ (claim_of line.now ≡ Err e)) }
    {
        let Some((key, message, signature)) = cut(line) else {
            return Err(ClaimParseError::MissingPart);
        };
        let key = printed_key(alloc, key)?;
        let message = hex::decode(alloc, message.as_bytes())?;
        let signature = printed_signature(alloc, signature)?;
        Ok(Claim::new(key, message, signature))
    }

    /// A copy.
    pub fn try_clone(&self) -> Result<Claim, AllocError>
        ensures { IfOk result (λ c. c ≡ self.now) }
    {
        self.clone()
    }
}

impl fmt::Display for Claim {
    ghost output = { λ c. Some (claim_text c) };

    ghost styled_output = { λ c _. Some (claim_text c) };

    fn fmt<W: fmt::Write>(&self, f: &mut fmt::Formatter<W>) -> fmt::Result {
        write_named(self.key.algorithm(), self.key.bytes(), f)?;
        f.write_str(" ")?;
        write_hex(self.message.as_slice(), f)?;
        f.write_str(" ")?;
        write_named(self.signature.algorithm(), self.signature.bytes(), f)
    }
}

impl fmt::Debug for Claim {
    ghost use Rattle.std.specs.Fmt.{WritesStyledOnOk};

    ghost debug_output = { λ c. Some (claim_text c) };

    fn fmt<W: fmt::Write>(&self, f: &mut fmt::Formatter<W>) -> fmt::Result
        ensures styled { WritesStyledOnOk W.write_str_gives f.old result
            (claim_text self.now) f.new }
    {
        fmt::Display::fmt(self, f)
    }
}

impl PartialEq for Claim {
    ghost use Rattle.std.specs.Cmp.{partial_equiv_from_equiv};
    ghost use Rattle.warg_claims.specs.Verified.Claims.{same_claim};
    ghost use Rattle.warg_claims.specs.Verified.SameClaims.{same_claim_equiv};

    ghost eq = { same_claim };

    ghost laws = { partial_equiv_from_equiv same_claim_equiv };

    fn eq(&self, other: &Claim) -> bool {
        self.parts() == other.parts()
    }
}

impl Eq for Claim {
    ghost use Rattle.warg_claims.specs.Verified.SameClaims.{same_claim_equiv};

    ghost laws = { same_claim_equiv };
}

impl PartialOrd for Claim {
    ghost use Rattle.warg_claims.specs.Verified.ClaimOrder.{claim_cmp, claim_po};

    ghost partial_cmp = { λ a b. Some (claim_cmp a b) };

    ghost laws = { claim_po };

    fn partial_cmp(&self, other: &Claim) -> Option<Ordering> {
        Some(self.cmp(other))
    }
}

// By the key, then the message, then the signature.
impl Ord for Claim {
    ghost use Rattle.std.proofs.Common.{refl};
    ghost use Rattle.warg_claims.specs.Verified.ClaimOrder.{claim_cmp, claim_total, claim_ties};

    ghost cmp = { claim_cmp };

    ghost total = { claim_total };

    ghost matches_partial_cmp = { λ a b. refl };

    ghost matches_eq = { claim_ties };

    fn cmp(&self, other: &Claim) -> Ordering {
        self.parts().order(&other.parts())
    }
}

impl Hash for Claim {
    ghost use Rattle.warg_claims.specs.Verified.SameClaims.{claim_hash_input, claim_hash_input-same_claim};

    ghost hash_input = { claim_hash_input };

    ghost respects_eq = { claim_hash_input-same_claim };

    fn hash<H: Hasher>(&self, state: &mut H) {
        self.parts().hash(state);
    }
}

impl Clone for Claim {
    ghost is_clone = { λ a b. b ≡ a };

    fn clone(&self) -> Result<Claim, AllocError> {
        Ok(Claim {
            key: self.key.try_clone()?,
            message: self.message.clone()?,
            signature: self.signature.try_clone()?,
        })
    }
}

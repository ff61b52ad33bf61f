//! The verifier that takes what a host has verified.

ghost use Rattle.std.specs.Prelude.{◌≡◌, ◌⊎◌, ◌==◌, [], length, IfOk, IfErr, OnOk, OnErr};
ghost use Rattle.std.specs.List.{list_any};
ghost use Rattle.std.specs.Str.Lines.{lines};
ghost use Rattle.indexmap.specs.IndexSet.{insert_key};
ghost use Rattle.warg_claims.specs.Verified.Claims.{is_claimed, same_claim};
ghost use Rattle.warg_claims.specs.Verified.Lines.{claim_of};
ghost use Rattle.warg_claims.specs.Verified.Texts.{IsAdded, IsFirstFault, IsLineAdded, IsReadFrom};
ghost use Rattle.warg_claims.specs.declared.verified.error.ClaimParseError.TheVariants as fault;

use crate::verified::claim::Claim;
use crate::verified::error::{ClaimParseError, VerifiedParseError};
use crate::verified::parts::Parts;
use std::alloc::{AllocError, Global};
use std::marker::Model;
use warg_crypto::signing::{PublicKey, Signature, SignatureError, Verifier};
use warg_maps::NameSet;

/// The claims that a host has verified, each once, in the order in which they came. As a verifier it takes these
/// and no others, so it is right exactly if the host was.
#[derive(Drop)]
pub struct Verified {
    claims: NameSet<Claim>,
}

impl Model for Verified {
    ghost use Rattle.std.specs.Prelude.{List};
    ghost use Rattle.warg_claims.specs.Verified.Claims.{ClaimData};

    ghost Value = { List ClaimData };

    ghost view = { λ v. v.claims.keys };
}

impl Verified {
    /// No claims.
    pub fn new(alloc: Global) -> Verified
        ensures { result ≡ [] }
    {
        Verified {
            claims: NameSet::new(alloc),
        }
    }

    /// Adds a claim, unless it is there already. An error leaves all as it was.
    pub fn insert(&mut self, claim: Claim) -> Result<(), AllocError>
        ensures added { OnOk result (self.new ≡ insert_key same_claim self.old claim) }
        ensures held { OnOk result (IsAdded self.old claim self.new) }
        ensures unchanged { OnErr result (self.new ≡ self.old) }
    {
        match self.claims.insert(claim) {
            Ok(_) => Ok(()),
            Err(_) => Err(AllocError),
        }
    }

    /// Whether the claim is there.
    pub fn contains(&self, claim: &Claim) -> bool
        ensures { result ≡ list_any (same_claim claim.now) self.now }
    {
        self.claims.contains(claim.parts())
    }

    /// The claims, each once.
    pub fn claims(&self) -> &[Claim]
        ensures { result.now ≡ self.now }
    {
        self.claims.iter().as_slice()
    }

    /// How many claims there are.
    pub fn len(&self) -> usize
        ensures { result ≡ length self.now }
    {
        self.claims.len()
    }

    /// Whether there are none.
    pub fn is_empty(&self) -> bool
        ensures { result ≡ (length self.now == 0) }
    {
        self.claims.is_empty()
    }

    // Adds the claim that a line says.
    fn insert_line(&mut self, alloc: Global, line: &str) -> Result<(), ClaimParseError>
        ensures added { OnOk result (IsLineAdded self.old line.now self.new) }
        ensures err { IfErr result (λ e. (e ≡ fault.OutOfMemory) ⊎ (claim_of line.now ≡ Err e)) }
    {
        let claim = Claim::parse(alloc, line)?;
        self.insert(claim)?;
        Ok(())
    }

    /// The claims that the lines of a text say, each as [`Claim::parse`] reads it, or the first line that says none.
    pub fn parse(alloc: Global, text: &str) -> Result<Verified, VerifiedParseError>
        ensures ok { IfOk result (IsReadFrom (lines text.now)) }
        ensures err { IfErr result (λ e. (e.fault ≡ fault.OutOfMemory) ⊎
            IsFirstFault (lines text.now) e.line e.fault) }
    {
        let mut verified = Verified::new(alloc);
        for (line, claim) in text.lines().enumerate() {
            if let Err(fault) = verified.insert_line(alloc, claim) {
                return Err(VerifiedParseError { line, fault });
            }
        }
        Ok(verified)
    }
}

impl Verifier for Verified {
    ghost use Rattle.warg_claims.specs.Verified.Claims.{is_claimed};

    ghost belongs = { is_claimed };

    fn verify(
        &self,
        _alloc: Global,
        key: &PublicKey,
        message: &[u8],
        signature: &Signature,
    ) -> Result<(), SignatureError> {
        let parts = Parts {
            key,
            message,
            signature,
        };
        if self.claims.contains(parts) {
            Ok(())
        } else {
            Err(SignatureError::Refused)
        }
    }
}

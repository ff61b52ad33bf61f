//! The parts of a claim, borrowed from where they stand.

ghost use Rattle.std.specs.Prelude.{◌≡◌};
ghost use Rattle.std.specs.Cmp.Lexicographic.{slice_cmp};
ghost use Rattle.std.specs.Ordering.{nat_cmp, ordering_then};
ghost use Rattle.warg_claims.specs.Verified.ClaimOrder.{claim_cmp, named_cmp};
ghost use Rattle.warg_claims.specs.Verified.Parts.{claim_in};

use crate::verified::claim::Claim;
use std::cmp::Ordering;
use std::collections::BTreeMap;
use std::collections::btree_map::Comparable;
use std::hash::{Hash, Hasher};
use warg_crypto::signing::{PublicKey, Signature};
use warg_maps::Query;

/// The parts of a claim, by which it is looked up without a copy.
#[derive(Clone, Copy)]
pub struct Parts<'a> {
    pub key: &'a PublicKey,
    pub message: &'a [u8],
    pub signature: &'a Signature,
}

/// The order of two keys or signatures: by their names, then by their bytes.
fn order_of_named(name: &str, bytes: &[u8], other_name: &str, other_bytes: &[u8]) -> Ordering
    ensures { result ≡ ordering_then (slice_cmp nat_cmp name.now other_name.now)
        (slice_cmp nat_cmp bytes.now other_bytes.now) }
{
    match name.cmp(other_name) {
        Ordering::Equal => bytes.cmp(other_bytes),
        unequal => unequal,
    }
}

fn order_of_keys(a: &PublicKey, b: &PublicKey) -> Ordering
    ensures { result ≡ named_cmp a.now b.now }
{
    order_of_named(a.algorithm(), a.bytes(), b.algorithm(), b.bytes())
}

fn order_of_signatures(a: &Signature, b: &Signature) -> Ordering
    ensures { result ≡ named_cmp a.now b.now }
{
    order_of_named(a.algorithm(), a.bytes(), b.algorithm(), b.bytes())
}

impl Parts<'_> {
    /// The order of the two claims: by the key, then the message, then the signature.
    pub(crate) fn order(&self, other: &Parts<'_>) -> Ordering
        ensures { result ≡ claim_cmp (claim_in self.now) (claim_in other.now) }
    {
        match order_of_keys(self.key, other.key) {
            Ordering::Equal => {}
            unequal => return unequal,
        }
        match self.message.cmp(other.message) {
            Ordering::Equal => order_of_signatures(self.signature, other.signature),
            unequal => unequal,
        }
    }
}

impl PartialEq for Parts<'_> {
    ghost use Rattle.std.specs.Cmp.{partial_equiv_from_equiv, on_equiv};
    ghost use Rattle.warg_claims.specs.Verified.Claims.{same_claim};
    ghost use Rattle.warg_claims.specs.Verified.SameClaims.{same_claim_equiv};
    ghost use Rattle.warg_claims.specs.Verified.Parts.{claim_in};

    ghost eq = { λ a b. same_claim (claim_in a) (claim_in b) };

    ghost laws = { partial_equiv_from_equiv (on_equiv claim_in same_claim_equiv) };

    fn eq(&self, other: &Self) -> bool {
        *self.key == *other.key
            && self.message == other.message
            && *self.signature == *other.signature
    }
}

impl Eq for Parts<'_> {
    ghost use Rattle.std.specs.Cmp.{on_equiv};
    ghost use Rattle.warg_claims.specs.Verified.SameClaims.{same_claim_equiv};
    ghost use Rattle.warg_claims.specs.Verified.Parts.{claim_in};

    ghost laws = { on_equiv claim_in same_claim_equiv };
}

impl Hash for Parts<'_> {
    ghost use Rattle.warg_claims.specs.Verified.SameClaims.{claim_hash_input, claim_hash_input-same_claim};
    ghost use Rattle.warg_claims.specs.Verified.Parts.{claim_in};

    ghost hash_input = { λ p. claim_hash_input (claim_in p) };

    ghost respects_eq = { λ a b. claim_hash_input-same_claim (claim_in a) (claim_in b) };

    fn hash<H: Hasher>(&self, state: &mut H) {
        self.key.hash(state);
        self.message.hash(state);
        self.signature.hash(state);
    }
}

// `Comparable` is how the tree of the standard library is asked by something else than a key.
impl Comparable<Claim> for Parts<'_> {
    ghost use Rattle.warg_claims.specs.Verified.ClaimOrder.{claim_cmp, claim_total, below_later};
    ghost use Rattle.warg_claims.specs.Verified.Parts.{claim_in};

    ghost compare = { λ p c. claim_cmp (claim_in p) c };

    ghost respects_cmp = { λ p x y. claim_total.congr (claim_in p) x y };

    ghost below_greater = { λ p x y. below_later (claim_in p) x y };

    fn compare(&self, claim: &Claim) -> Ordering {
        self.order(&claim.parts())
    }
}

impl Query<Claim> for Parts<'_> {
    ghost use Rattle.warg_claims.specs.Verified.Claims.{same_claim};
    ghost use Rattle.warg_claims.specs.Verified.SameClaims.{same_claim_equiv, claim_hash_input-same_claim};
    ghost use Rattle.warg_claims.specs.Verified.Parts.{claim_in};

    ghost equivalent = { λ p c. same_claim (claim_in p) c };

    ghost respects_hash = { λ p c. claim_hash_input-same_claim (claim_in p) c };

    ghost respects_eq = { λ p x y. same_claim_equiv.congr (claim_in p) x y };

    fn equivalent(&self, claim: &Claim) -> bool {
        *self == claim.parts()
    }

    fn number_in(&self, numbers: &BTreeMap<Claim, usize>) -> Option<usize> {
        numbers.get(*self).copied()
    }
}

//! Proofs on a map.

ghost use Rattle.std.specs.Prelude.{◌≡◌, ◌≢◌, ◌<◌, ◌↔◌, List, ℕ, Ok, Some, length, string_bytes, IfOk};
ghost use Rattle.std.specs.List.{All};
ghost use Rattle.std.specs.Cmp.Lexicographic.{pointwise};
ghost use Rattle.std.specs.Str.{bytes_eq};
ghost use Rattle.base64.specs.Engines.{standard};
ghost use Rattle.base64.specs.GeneralPurpose.{decode_of};
ghost use Rattle.sha2.specs.Sha256.{sha256};
ghost use Rattle.warg_crypto.specs.OutcomeResults.{ReturnsOr};
ghost use Rattle.warg_merkle.specs.MapProof.ShortForms.{IsShortForm, short_form_len};
ghost use Rattle.warg_transparency.specs.Texts.{map_proof_of, map_proof_text, text_fault_of};
ghost use Rattle.warg_transparency.specs.declared.error.ProofTextError.TheVariants as fault;

use crate::error::ProofTextError;
use crate::text::decode_base64;
use base64::engine::general_purpose::STANDARD;
use std::alloc::{AllocError, Global};
use std::fmt;
use std::marker::Model;
use warg_crypto::base64_text::write_base64;
use warg_merkle::map_proof::MapProofError;

// The length of the text of 32 bytes and 256 hashes.
const LONGEST_TEXT: usize = 10968;

/// A proof of the leaf that a map has for a log, or that it has none. In contracts it is its path of 256 siblings, from the
/// leaf up. Its text is the base64 (RFC 4648, with padding) of its short form, which leaves out the roots of empty subtrees.
#[derive(Debug, Drop)]
pub struct MapProof {
    short: warg_merkle::map_proof::MapProof,
}

impl Model for MapProof {
    ghost use Rattle.std.specs.Prelude.{List, ℕ};

    ghost Value = { List (List ℕ) };

    ghost view = { λ p. p.short };
}

// What no short form is, as what no text is.
fn fault_of(error: MapProofError) -> ProofTextError
    ensures { result ≡ text_fault_of error }
{
    match error {
        MapProofError::TooShort | MapProofError::TooLong => ProofTextError::BadLength,
        MapProofError::EmptySibling => ProofTextError::EmptySibling,
        MapProofError::OutOfMemory => ProofTextError::OutOfMemory,
    }
}

// Whether the short forms are of one path: a path has one short form.
fn is_same(
    short: &warg_merkle::map_proof::MapProof,
    other: &warg_merkle::map_proof::MapProof,
) -> bool
    ensures { result ≡ pointwise bytes_eq short.now other.now }
{
    short.as_bytes() == other.as_bytes()
}

impl MapProof {
    // The proof of this short form.
    pub(crate) fn of_short(short: warg_merkle::map_proof::MapProof) -> MapProof
        ensures { result ≡ short }
    {
        MapProof { short }
    }

    // The short form, as the verifiers take it.
    pub(crate) fn short(&self) -> &warg_merkle::map_proof::MapProof
        ensures { result.now ≡ self.now }
    {
        &self.short
    }

    /// The proof that the text is of. The length of the text is tested first, before anything else.
    pub fn parse(alloc: Global, text: &str) -> Result<MapProof, ProofTextError>
        ensures ok { IfOk result (λ proof. (bytes : List ℕ) × IsShortForm sha256 proof bytes
            × (decode_of standard text.now ≡ Ok bytes)) }
        ensures too_long { (result ≡ Err fault.TooLong) ↔ (10968 < length text.now) }
        ensures bad_base64 { result ≡ Err fault.BadBase64 → (bytes : List ℕ) →
            decode_of standard text.now ≢ Ok bytes }
        ensures bad_length { result ≡ Err fault.BadLength → (bytes : List ℕ) →
            decode_of standard text.now ≡ Ok bytes →
            length bytes ≢ short_form_len bytes }
        ensures empty_sibling { result ≡ Err fault.EmptySibling → (path : List (List ℕ)) →
            All (λ sibling. length sibling ≡ 32) path → (bytes : List ℕ) →
            decode_of standard text.now ≡ Ok bytes →
            ¬ IsShortForm sha256 path bytes }
        ensures value { ReturnsOr fault.OutOfMemory (λ proof. proof) result
            (map_proof_of text.now) }
    {
        if text.len() > LONGEST_TEXT {
            return Err(ProofTextError::TooLong);
        }
        let bytes = decode_base64(alloc, text)?;
        match warg_merkle::map_proof::MapProof::decode(alloc, bytes.as_slice()) {
            Ok(short) => Ok(MapProof { short }),
            Err(error) => Err(fault_of(error)),
        }
    }

    /// The text of the proof.
    pub fn to_text(&self, alloc: Global) -> Result<String, AllocError>
        ensures value { IfOk result (λ text. string_bytes text ≡ map_proof_text self.now) }
        ensures reads_back { IfOk result (λ text. map_proof_of (string_bytes text) ≡ Ok self.now) }
    {
        STANDARD.encode(alloc, self.short.as_bytes())
    }
}

impl PartialEq for MapProof {
    ghost use Rattle.std.specs.Cmp.{partial_equiv_from_equiv};
    ghost use Rattle.std.specs.Cmp.Lexicographic.{lists_equiv, nat_list_eq_equiv};

    ghost eq = { pointwise bytes_eq };

    ghost laws = { partial_equiv_from_equiv (lists_equiv nat_list_eq_equiv) };

    fn eq(&self, other: &MapProof) -> bool {
        is_same(&self.short, &other.short)
    }
}

impl Eq for MapProof {
    ghost use Rattle.std.specs.Cmp.Lexicographic.{lists_equiv, nat_list_eq_equiv};

    ghost laws = { lists_equiv nat_list_eq_equiv };
}

impl fmt::Display for MapProof {
    ghost output = { λ p. Some (map_proof_text p) };

    ghost styled_output = { λ p _. Some (map_proof_text p) };

    fn fmt<W: fmt::Write>(&self, f: &mut fmt::Formatter<W>) -> fmt::Result {
        write_base64(self.short.as_bytes(), f)
    }
}

//! Proofs on a log.

ghost use Rattle.std.specs.Prelude.{◌≡◌, ◌≢◌, ◌<◌, ◌≤◌, ◌↔◌, List, ℕ, Ok, Some, length, string_bytes, IfOk};
ghost use Rattle.std.specs.List.{All, concat};
ghost use Rattle.base64.specs.Engines.{standard};
ghost use Rattle.base64.specs.GeneralPurpose.{decode_of};
ghost use Rattle.warg_crypto.specs.OutcomeResults.{ReturnsOr};
ghost use Rattle.warg_transparency.specs.Texts.{log_proof_of, log_proof_text};
ghost use Rattle.warg_transparency.specs.declared.error.ProofTextError.TheVariants as fault;

use crate::error::ProofTextError;
use crate::text::decode_base64;
use base64::engine::general_purpose::STANDARD;
use std::alloc::{AllocError, Global};
use std::fmt;
use std::marker::Model;
use warg_crypto::base64_text::write_base64;

// The length of the text of 64 hashes.
const LONGEST_TEXT: usize = 2732;

/// The hashes of a proof of inclusion, from the leaf up, or of a proof of consistency: at most 64. In contracts it is their
/// list. Its text is the base64 (RFC 4648, with padding) of the hashes in a row.
#[derive(Debug, Drop)]
pub struct LogProof {
    bytes: Vec<u8>,
}

impl Model for LogProof {
    ghost use Rattle.std.specs.Prelude.{◌≡◌, ◌≤◌, ◌/◌, ◌%◌, List, ℕ, length};
    ghost use Rattle.std.specs.Simd.{first_chunks};

    ghost Value = { List (List ℕ) };

    ghost view = { λ p. first_chunks 32 (length p.bytes.items / 32) p.bytes.items };

    ghost invariant = { λ p. (length p.bytes.items % 32 ≡ 0) × (length p.bytes.items ≤ 2048) };
}

impl LogProof {
    /// The proof of these hashes.
    pub fn from_hashes(alloc: Global, hashes: &[[u8; 32]]) -> Result<LogProof, AllocError>
        requires { length hashes.now ≤ 64 }
        ensures { IfOk result (λ proof. proof ≡ hashes.now) }
    {
        let mut bytes = Vec::new(alloc);
        for hash in hashes {
            bytes.extend_from_slice(hash.as_slice())?;
        }
        Ok(LogProof { bytes })
    }

    /// The hashes, as the verifiers take them.
    pub fn hashes(&self) -> &[[u8; 32]]
        ensures value { result.now ≡ self.now }
        ensures few { length self.now ≤ 64 }
    {
        let (hashes, _) = self.bytes.as_chunks::<32>();
        hashes
    }

    /// The proof that the text is of, of at most 64 hashes. The length of the text is tested first, before anything else.
    pub fn parse(alloc: Global, text: &str) -> Result<LogProof, ProofTextError>
        ensures ok { IfOk result (λ proof. decode_of standard text.now ≡ Ok (concat proof)) }
        ensures few { IfOk result (λ proof. length proof ≤ 64) }
        ensures too_long { (result ≡ Err fault.TooLong) ↔ (2732 < length text.now) }
        ensures bad_base64 { result ≡ Err fault.BadBase64 → (bytes : List ℕ) →
            decode_of standard text.now ≢ Ok bytes }
        ensures bad_length { result ≡ Err fault.BadLength →
            (hashes : List (List ℕ)) → length hashes ≤ 64 →
            All (λ hash. length hash ≡ 32) hashes →
            decode_of standard text.now ≢ Ok (concat hashes) }
        ensures value { ReturnsOr fault.OutOfMemory (λ proof. proof) result
            (log_proof_of text.now) }
        ensures no_empty_sibling { result ≢ Err fault.EmptySibling }
    {
        if text.len() > LONGEST_TEXT {
            return Err(ProofTextError::TooLong);
        }
        let bytes = decode_base64(alloc, text)?;
        if bytes.len() > 2048 || bytes.len() % 32 != 0 {
            return Err(ProofTextError::BadLength);
        }
        Ok(LogProof { bytes })
    }

    /// The text of the proof.
    pub fn to_text(&self, alloc: Global) -> Result<String, AllocError>
        ensures value { IfOk result (λ text. string_bytes text ≡ log_proof_text self.now) }
        ensures reads_back { IfOk result (λ text. log_proof_of (string_bytes text) ≡ Ok self.now) }
    {
        STANDARD.encode(alloc, self.bytes.as_slice())
    }
}

impl PartialEq for LogProof {
    ghost use Rattle.std.specs.Cmp.{partial_equiv_from_equiv};
    ghost use Rattle.std.specs.Cmp.Lexicographic.{lists_equiv, nat_list_eq_equiv, pointwise};
    ghost use Rattle.std.specs.Str.{bytes_eq};

    ghost eq = { pointwise bytes_eq };

    ghost laws = { partial_equiv_from_equiv (lists_equiv nat_list_eq_equiv) };

    fn eq(&self, other: &LogProof) -> bool {
        self.hashes() == other.hashes()
    }
}

impl Eq for LogProof {
    ghost use Rattle.std.specs.Cmp.Lexicographic.{lists_equiv, nat_list_eq_equiv};

    ghost laws = { lists_equiv nat_list_eq_equiv };
}

impl fmt::Display for LogProof {
    ghost output = { λ p. Some (log_proof_text p) };

    ghost styled_output = { λ p _. Some (log_proof_text p) };

    fn fmt<W: fmt::Write>(&self, f: &mut fmt::Formatter<W>) -> fmt::Result {
        write_base64(self.bytes.as_slice(), f)
    }
}

//! The proof as a value.

ghost use Rattle.std.specs.Prelude.{◌≡◌, ◌<◌, ◌≤◌, ◌↔◌, ◌⊎◌, ℕ, List, Ok, length, slice_index, IfOk, MatchResult};
ghost use Rattle.std.specs.List.{All};
ghost use Rattle.sha2.specs.Sha256.{sha256};
ghost use Rattle.warg_merkle.specs.MapProof.ShortForms.{full_path, path_in, short_form_len, short_form_of, AreParts, IsShortForm};
ghost use Rattle.warg_merkle.specs.declared.map_proof.error.MapProofError.TheVariants as fault;

use crate::map_proof::build::{bits_of, push_others};
use crate::map_proof::decode::{is_short, others_count};
use crate::map_proof::error::MapProofError;
use std::alloc::{AllocError, Global};
use std::marker::Model;

/// A key's path in a sparse map: 256 siblings from the leaf up, kept in its short form. The roots of empty subtrees take a
/// bit each, and the others 32 bytes.
#[derive(Debug, Drop)]
pub struct MapProof {
    bytes: Vec<u8>,
}

impl Model for MapProof {
    ghost use Rattle.std.specs.Prelude.{List, ℕ};
    ghost use Rattle.sha2.specs.Sha256.{sha256};
    ghost use Rattle.warg_merkle.specs.MapProof.ShortForms.{path_of, IsShort};

    ghost Value = { List (List ℕ) };

    ghost view = { λ p. path_of sha256 p.bytes.items };

    ghost invariant = { λ p. IsShort sha256 p.bytes.items };
}

// Each byte is below 256: what its type promises, as a fact.
fn byte_range(bytes: &[u8])
    ensures { (i : ℕ) → slice_index bytes.now i < 256 }
{}

impl MapProof {
    /// The proof that the bytes are the short form of. Their length is tested first, before anything is hashed or takes
    /// memory.
    pub fn decode(alloc: Global, bytes: &[u8]) -> Result<MapProof, MapProofError>
        ensures too_short { (result ≡ Err fault.TooShort) ↔
            (length bytes.now < short_form_len bytes.now) }
        ensures too_long { (result ≡ Err fault.TooLong) ↔
            (short_form_len bytes.now < length bytes.now) }
        ensures empty_sibling { result ≡ Err fault.EmptySibling →
            (path : List (List ℕ)) → All (λ p. length p ≡ 32) path →
            ¬ IsShortForm sha256 path bytes.now }
        ensures out_of_memory { result ≡ Err fault.OutOfMemory →
            (path : List (List ℕ)) × IsShortForm sha256 path bytes.now }
        ensures ok { IfOk result (λ proof. IsShortForm sha256 proof bytes.now) }
        ensures exact { MatchResult result (λ proof. path_in sha256 bytes.now ≡ Ok proof)
            (λ e. (e ≡ fault.OutOfMemory) ⊎ (path_in sha256 bytes.now ≡ Err e)) }
    {
        let Some((left_out, rest)) = bytes.split_first_chunk::<32>() else {
            return Err(MapProofError::TooShort);
        };
        let wanted = 32 * others_count(left_out);
        if rest.len() < wanted {
            return Err(MapProofError::TooShort);
        }
        if rest.len() > wanted {
            return Err(MapProofError::TooLong);
        }
        let (others, _) = rest.as_chunks::<32>();
        if !is_short(left_out, others) {
            return Err(MapProofError::EmptySibling);
        }
        let bytes = Vec::from_slice(alloc, bytes)?;
        Ok(MapProof { bytes })
    }

    /// The short form of the proof, of at most 8224 bytes.
    pub fn as_bytes(&self) -> &[u8]
        ensures value { result.now ≡ short_form_of sha256 self.now }
        ensures form { IsShortForm sha256 self.now result.now }
        ensures reads_back { path_in sha256 result.now ≡ Ok self.now }
        ensures few { length result.now ≤ 8224 }
    {
        let bytes = self.bytes.as_slice();
        byte_range(bytes);
        bytes
    }

    // The bits, and the siblings that they do not leave out.
    pub(crate) fn parts(&self) -> (&[u8; 32], &[[u8; 32]])
        ensures path { full_path sha256 result.0.now result.1.now ≡ self.now }
        ensures parts { AreParts sha256 result.0.now result.1.now }
    {
        let Some((left_out, rest)) = self.bytes.split_first_chunk::<32>() else {
            unreachable!();
        };
        let (others, _) = rest.as_chunks::<32>();
        (left_out, others)
    }

    /// The proof of 256 siblings from the leaf up.
    pub fn from_path(alloc: Global, path: &[[u8; 32]]) -> Result<MapProof, AllocError>
        requires { length path.now ≡ 256 }
        ensures { IfOk result (λ proof. proof ≡ path.now) }
    {
        let left_out = bits_of(path);
        let mut bytes = Vec::from_slice(alloc, left_out.as_slice())?;
        push_others(&mut bytes, &left_out, path)?;
        Ok(MapProof { bytes })
    }
}

//! Laws of the definitions, and of the types that rest on them.

ghost use Rattle.std.specs.Prelude.{◌≡◌, ◌++◌, ◌≤◌, ◌↔◌, ℕ, List, length, IfOk, Ok, true};
ghost use Rattle.hex.specs.Hex.{IsBytes};
ghost use Rattle.warg_crypto.specs.HashText.{hash_of, hash_text, IsHashText};
ghost use Rattle.warg_crypto.specs.Keys.{public_key_of, signature_of};
ghost use Rattle.warg_crypto.specs.Prefix.{IsLeb128, str_of, unsigned_of};
ghost use Rattle.warg_crypto.specs.NamedBytes.{IsKeyText, IsName, NamedBytes, named_bytes_text};
ghost use Rattle.warg_crypto.specs.declared.coding.DecodeError.{DecodeError};
ghost use Rattle.warg_crypto.specs.declared.coding.WireFault.{WireFault};
ghost use Rattle.warg_crypto.specs.declared.hash.AnyHash.{AnyHash};
ghost use Rattle.warg_crypto.specs.declared.hash.AnyHashError.{AnyHashError};
ghost use Rattle.warg_crypto.specs.declared.hash.HashAlgorithm.{HashAlgorithm};
ghost use Rattle.warg_crypto.specs.declared.hash.UnknownAlgorithm.{UnknownAlgorithm};
ghost use Rattle.warg_crypto.specs.declared.hash.typed.Hash.{Hash};
ghost use Rattle.warg_crypto.specs.declared.signing.error.KeyParseError.{KeyParseError};
ghost use Rattle.warg_crypto.specs.declared.signing.error.SignatureError.{SignatureError};
ghost use Rattle.warg_crypto.specs.declared.signing.error.SignatureParseError.{SignatureParseError};

mod hashing;
mod order;
mod texts;

use crate::hash::{AnyHash, AnyHashError, Hash, HashAlgorithm, SupportedDigest, UnknownAlgorithm};
pub use crate::ranges::byte_range;
use crate::signing::{
    KeyID, KeyParseError, PublicKey, Signature, SignatureError, SignatureParseError,
};
use crate::toy::{ToySigner, ToyVerifier};
use crate::visit::VisitBytes;
use crate::{DecodeError, WireFault};
pub use hashing::{feed_id, feed_key, feed_signature};
pub use order::{compare_algorithms, compare_hashes, compare_ids, compare_typed_hashes};
use std::alloc::{AllocError, Global};
pub use texts::{
    print_algorithm, print_hash, print_id, print_key, print_signature, print_typed_hash,
};

/// What is written of a hash reads back.
pub fn hash_reads_back()
    ensures { (h : AnyHash) → length h.bytes ≡ 32 → IsBytes h.bytes → hash_of (hash_text h) ≡ Ok h }
{}

/// What is written of a key reads back.
pub fn public_key_reads_back()
    ensures { (key : NamedBytes) → IsName key.name → IsBytes key.bytes →
        public_key_of (named_bytes_text key) ≡ Ok key }
{}

/// What is written of a signature reads back.
pub fn signature_reads_back()
    ensures { (signature : NamedBytes) → IsName signature.name → IsBytes signature.bytes →
        signature_of (named_bytes_text signature) ≡ Ok signature }
{}

/// A text spells a hash exactly if it is `sha256:` and 64 hex digits that spell the hash's bytes.
pub fn hash_text_grammar()
    ensures { (text : List ℕ) (h : AnyHash) → (hash_of text ≡ Ok h) ↔ IsHashText text h }
{}

/// A text says a key exactly if it is the key's name, a colon, and base64 of the key's bytes.
pub fn public_key_text_grammar()
    ensures { (text : List ℕ) (key : NamedBytes) →
        (public_key_of text ≡ Ok key) ↔ IsKeyText text key }
{}

/// A text says a signature exactly if it is the signature's name, a colon, and base64 of its
/// bytes.
pub fn signature_text_grammar()
    ensures { (text : List ℕ) (signature : NamedBytes) → (signature_of text ≡ Ok signature)
        ↔ IsKeyText text signature }
{}

/// Whatever a toy signer gives for a message belongs to it under the signer's key.
pub fn toy_signature_belongs(signer: &ToySigner, verifier: &ToyVerifier)
    ensures { (message : List ℕ) (signature : NamedBytes) →
        ⟦<ToySigner as crate::signing::Signer>⟧.gives signer.now message signature →
        ⟦<ToyVerifier as crate::signing::Verifier>⟧.belongs verifier.now
        (⟦<ToySigner as crate::signing::Signer>⟧.key_of signer.now) message signature ≡ true }
{
    let _ = &signer.key;
}

/// A value's bytes, and their digest: a visit into a `Vec` and a digest see one list.
pub fn bytes_and_hash<D: SupportedDigest, T: VisitBytes>(
    alloc: Global,
    content: &T,
) -> Result<(Vec<u8>, Hash<D>), AllocError>
    ensures bytes { IfOk result (λ r. r.0.items ≡ T.bytes_of content.now) }
    ensures hash { IfOk result (λ r. r.1.bytes ≡ D.digest_of r.0.items) }
{
    let mut bytes = Vec::new(alloc);
    content.visit(&mut bytes)?;
    Ok((bytes, Hash::of(content)))
}

/// The bytes of a number are a LEB128 of it.
pub fn unsigned_is_leb128()
    ensures { (v : ℕ) → IsLeb128 (unsigned_of v) v }
{}

/// No LEB128 of a number is shorter than its bytes.
pub fn unsigned_is_shortest()
    ensures { (v : ℕ) (bytes : List ℕ) → IsLeb128 bytes v → length (unsigned_of v) ≤ length bytes }
{}

/// What begins with the bytes of a number begins with those of no other, so none are a proper
/// beginning of others.
pub fn unsigned_is_no_beginning()
    ensures { (v w : ℕ) (r s : List ℕ) → unsigned_of v ++ r ≡ unsigned_of w ++ s → (v ≡ w) ×
        (r ≡ s) }
{}

/// The same for texts behind their lengths.
pub fn str_is_no_beginning()
    ensures { (t u r s : List ℕ) → str_of t ++ r ≡ str_of u ++ s → (t ≡ u) × (r ≡ s) }
{}

/// When `==` is true: exactly where both are identical. That is, of hashes, in algorithm and bytes; of ids of keys, in
/// text; of keys and signatures, in name and bytes; of errors, in case and in what the case holds.
pub fn equality()
    ensures algorithms { (a b : HashAlgorithm) →
        (⟦<HashAlgorithm as PartialEq>⟧.eq a b ≡ true) ↔ (a ≡ b) }
    ensures hashes { (a b : AnyHash) → (⟦<AnyHash as PartialEq>⟧.eq a b ≡ true) ↔ (a ≡ b) }
    ensures ids { (a b : List ℕ) → (⟦<KeyID as PartialEq>⟧.eq a b ≡ true) ↔ (a ≡ b) }
    ensures keys { (a b : NamedBytes) → (⟦<PublicKey as PartialEq>⟧.eq a b ≡ true) ↔ (a ≡ b) }
    ensures signatures { (a b : NamedBytes) → (⟦<Signature as PartialEq>⟧.eq a b ≡ true) ↔ (a ≡ b) }
    ensures unknown_algorithms { (a b : UnknownAlgorithm) →
        (⟦<UnknownAlgorithm as PartialEq>⟧.eq a b ≡ true) ↔ (a ≡ b) }
    ensures hash_errors { (a b : AnyHashError) →
        (⟦<AnyHashError as PartialEq>⟧.eq a b ≡ true) ↔ (a ≡ b) }
    ensures key_errors { (a b : KeyParseError) →
        (⟦<KeyParseError as PartialEq>⟧.eq a b ≡ true) ↔ (a ≡ b) }
    ensures signature_parse_errors { (a b : SignatureParseError) →
        (⟦<SignatureParseError as PartialEq>⟧.eq a b ≡ true) ↔ (a ≡ b) }
    ensures signature_errors { (a b : SignatureError) →
        (⟦<SignatureError as PartialEq>⟧.eq a b ≡ true) ↔ (a ≡ b) }
    ensures wire_faults { (a b : WireFault) → (⟦<WireFault as PartialEq>⟧.eq a b ≡ true) ↔ (a ≡ b) }
    ensures decode_errors { (a b : DecodeError) →
        (⟦<DecodeError as PartialEq>⟧.eq a b ≡ true) ↔ (a ≡ b) }
{}

/// `==` of hashes whose type names their digest is true exactly where their bytes are identical.
pub fn typed_hash_equality<D: PartialEq>()
    ensures { (a b : Hash D) → (⟦<Hash<D> as PartialEq>⟧.eq a b ≡ true) ↔ (a.bytes ≡ b.bytes) }
{}

//! Laws of plain texts. They have no effect.

ghost use Rattle.std.specs.Prelude.{◌≡◌, ℕ, List, Ok, true};
ghost use Rattle.std.specs.Fmt.{decimal};
ghost use Rattle.base64.specs.Engines.{standard};
ghost use Rattle.base64.specs.GeneralPurpose.{encode_of};
ghost use Rattle.semver.specs.Identifiers.{parts_text};
ghost use Rattle.semver.specs.Parse.{Parts, version_parts};
ghost use Rattle.sha2.specs.Sha256.{sha256};
ghost use Rattle.warg_crypto.specs.HashText.{hash_of, hash_text};
ghost use Rattle.warg_crypto.specs.declared.hash.AnyHash.{AnyHash};
ghost use Rattle.tool_laws.specs.Plain.Plain.{AreBytes, is_plain};
ghost use Rattle.warg_printable.specs.Printable.{IsPrintable};

/// No hidden character stands in a plain text.
pub fn plain_is_printable()
    ensures { (text : List ℕ) → is_plain text ≡ true → IsPrintable text }
{}

/// A number in decimal digits is plain.
pub fn numbers_are_plain()
    ensures { (n : ℕ) → is_plain (decimal n) ≡ true }
{}

/// So is the text of a hash of bytes; the bytes of a digest and of a hash that was read are such.
pub fn hashes_are_plain()
    ensures text { (h : AnyHash) → AreBytes h.bytes → is_plain (hash_text h) ≡ true }
    ensures digest { (message : List ℕ) → AreBytes (sha256 message) }
    ensures read { (text : List ℕ) (h : AnyHash) → hash_of text ≡ Ok h → AreBytes h.bytes }
{}

/// So are bytes in base64.
pub fn base64_is_plain()
    ensures { (bytes : List ℕ) → AreBytes bytes → is_plain (encode_of standard bytes) ≡ true }
{}

/// So is the text of a version that reads back.
pub fn versions_are_plain()
    ensures { (version : Parts) → version_parts (parts_text version) ≡ Ok version →
        is_plain (parts_text version) ≡ true }
{}

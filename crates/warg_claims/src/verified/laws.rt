//! Laws of claims and of what is held of them. They have no effect.

ghost use Rattle.std.specs.Prelude.{◌≡◌, ◌↔◌, ◌∷◌, ◌++◌, ℕ, List, Contains, Ok, true};
ghost use Rattle.std.specs.Str.{IsUtf8};
ghost use Rattle.hex.specs.Hex.{IsBytes, encode_lower};
ghost use Rattle.warg_crypto.specs.NamedBytes.{IsName, NamedBytes, named_bytes_text};
ghost use Rattle.warg_printable.specs.Printable.{IsPrintable};
ghost use Rattle.warg_claims.specs.Verified.Claims.{ClaimData, IsPlain, claim_text, is_claimed};
ghost use Rattle.warg_claims.specs.Verified.Lines.{claim_of};

/// A triple is taken exactly if it is one of the claims.
pub fn taken_is_claimed()
    ensures { (claims : List ClaimData) (key : NamedBytes) (message : List ℕ)
        (signature : NamedBytes) →
        (is_claimed claims key message signature ≡ true) ↔
        Contains claims (record { key = key; message = message; signature = signature }) }
{}

/// More claims take every triple that fewer take.
pub fn more_claims_take_more()
    ensures { (few many : List ClaimData) → ((c : ClaimData) → Contains few c → Contains many c) →
        (key : NamedBytes) (message : List ℕ) (signature : NamedBytes) →
        is_claimed few key message signature ≡ true → is_claimed many key message signature ≡ true }
{}

/// A claim's line is one line, and no hidden character stands in it, whatever the names of its key and its signature.
pub fn claim_is_printable()
    ensures { (c : ClaimData) → IsBytes c.message → IsPrintable (claim_text c) }
{}

/// What is written of a claim reads back, whatever the names of its key and its signature.
pub fn claim_reads_back()
    ensures { (c : ClaimData) → IsName c.key.name → IsName c.signature.name →
        IsUtf8 c.key.name → IsUtf8 c.signature.name → IsBytes c.key.bytes →
        IsBytes c.message → IsBytes c.signature.bytes → claim_of (claim_text c) ≡ Ok c }
{}

/// Where nothing is to be escaped in its key's and its signature's text, a claim's line has them as they are.
pub fn plain_claim_stays()
    ensures { (c : ClaimData) → IsPlain c.key → IsPlain c.signature →
        claim_text c ≡ named_bytes_text c.key ++ 32 ∷ encode_lower c.message ++ 32 ∷
        named_bytes_text c.signature }
{}

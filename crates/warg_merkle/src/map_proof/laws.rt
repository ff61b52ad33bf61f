//! Short forms and paths belong to each other.

ghost use Rattle.std.specs.Prelude.{◌≡◌, ◌<◌, ℕ, List, length, slice_index};
ghost use Rattle.std.specs.List.{All};
ghost use Rattle.sha2.specs.Sha256.{sha256};
ghost use Rattle.warg_merkle.specs.MapProof.ShortForms.{short_form_of, IsShortForm};

/// A path of 256 hashes has one short form, and bytes are the short form of one path of hashes at most.
pub fn short_forms()
    ensures one_path { (path : List (List ℕ)) (other : List (List ℕ)) (bytes : List ℕ) →
        All (λ p. length p ≡ 32) path → All (λ p. length p ≡ 32) other →
        IsShortForm sha256 path bytes → IsShortForm sha256 other bytes → path ≡ other }
    ensures one_form { (path : List (List ℕ)) (bytes : List ℕ) (other : List ℕ) →
        ((i : ℕ) → slice_index bytes i < 256) → ((i : ℕ) → slice_index other i < 256) →
        IsShortForm sha256 path bytes → IsShortForm sha256 path other → bytes ≡ other }
    ensures own { (path : List (List ℕ)) → length path ≡ 256 →
        IsShortForm sha256 path (short_form_of sha256 path) }
{}

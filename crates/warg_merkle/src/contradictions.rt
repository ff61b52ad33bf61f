//! Two proofs that are accepted under one root say one thing, or what is hashed for them collides, at a place that is
//! named. Nothing has to be known of the tree. These laws have no effect.

ghost use Rattle.std.specs.Prelude.{◌≡◌, ◌⊎◌, ◌^◌, ◌<◌, ◌≤◌, ℕ, List, [], length, slice_index_or};
ghost use Rattle.std.specs.List.{All};
ghost use Rattle.sha2.specs.Sha256.{sha256};
ghost use Rattle.warg_merkle.specs.Trees.{Includes, HaveCollision, inclusion_path, path_inputs, tree_hash};
ghost use Rattle.warg_merkle.specs.Extensions.{IsConsistent, climb_inputs_from, extension_sides, with_start};

/// Two leaves that are shown at one place of trees of one size and root are one, and so are their paths.
pub fn one_leaf()
    ensures { (leaf other : List ℕ) (index size : ℕ) (path other_path : List (List ℕ))
        (root : List ℕ) → All (λ p. length p ≡ 32) path → All (λ p. length p ≡ 32) other_path →
        Includes sha256 leaf index size path root →
        Includes sha256 other index size other_path root →
        ((leaf ≡ other) × (path ≡ other_path)) ⊎
        HaveCollision sha256 (path_inputs sha256 leaf index size path)
        (path_inputs sha256 other index size other_path) }
{}

/// Two roots that are shown for as many first leaves of trees of one size and root are one.
pub fn one_beginning()
    ensures { (first size : ℕ) (path other_path : List (List ℕ)) (old other root : List ℕ) →
        length old ≡ 32 → length other ≡ 32 →
        All (λ p. length p ≡ 32) path → All (λ p. length p ≡ 32) other_path →
        IsConsistent sha256 first size path old root →
        IsConsistent sha256 first size other_path other root →
        (old ≡ other) ⊎ HaveCollision sha256
        (climb_inputs_from sha256 (extension_sides first size) (with_start sha256 first old path))
        (climb_inputs_from sha256 (extension_sides first size)
        (with_start sha256 first other other_path)) }
{}

/// Two lists of leaves of one length and root are one, or what is hashed for the own paths of two of their leaves, which
/// stand at one place, collides. A tree's own path is accepted at each of its leaves.
pub fn one_list()
    ensures own { (leaves : List (List ℕ)) (index : ℕ) → index < length leaves →
        length leaves ≤ 2 ^ 64 →
        Includes sha256 (slice_index_or leaves index []) index (length leaves)
        (inclusion_path sha256 index leaves) (tree_hash sha256 leaves) }
    ensures one { (leaves others : List (List ℕ)) → length leaves ≡ length others →
        length leaves ≤ 2 ^ 64 → tree_hash sha256 leaves ≡ tree_hash sha256 others →
        (leaves ≡ others) ⊎ ((index : ℕ) × HaveCollision sha256
        (path_inputs sha256 (slice_index_or leaves index []) index (length leaves)
        (inclusion_path sha256 index leaves))
        (path_inputs sha256 (slice_index_or others index []) index (length leaves)
        (inclusion_path sha256 index others))) }
{}

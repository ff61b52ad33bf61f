//! What the ways, the roots and the paths are.

ghost use Rattle.std.specs.Prelude.{◌≡◌, ◌⊎◌, ℕ, List, Option, None, Some, length};
ghost use Rattle.std.specs.List.{All};
ghost use Rattle.sha2.specs.Sha256.{sha256};
ghost use Rattle.warg_merkle.specs.Trees.{Side, HaveCollision};
ghost use Rattle.warg_merkle.specs.SparseMap.Maps.{IsKey, way_down, map_root, map_path, path_inputs, Leads, empty_root};

/// Each key has a way of its own, the own path of each map is accepted at each key, and an empty map has one root at
/// each height.
pub fn maps()
    ensures keys { (key : List ℕ) (other : List ℕ) → IsKey key → IsKey other →
        way_down key ≡ way_down other → key ≡ other }
    ensures own { (m : List Side → Option (List ℕ)) (key : List ℕ) →
        Leads sha256 (m (way_down key)) key (map_path sha256 m (way_down key))
        (map_root sha256 256 m) }
    ensures empty { (height : ℕ) → map_root sha256 height (λ way. None) ≡ empty_root sha256 height }
{}

/// What two accepted proofs say of one key under one root is one thing, a value or none, and their paths are one, or what is
/// hashed for them collides. So a value and its absence can't both be shown.
pub fn one_value()
    ensures one { (value other : Option (List ℕ)) (key root : List ℕ)
        (path other_path : List (List ℕ)) →
        All (λ p. length p ≡ 32) path → All (λ p. length p ≡ 32) other_path →
        Leads sha256 value key path root → Leads sha256 other key other_path root →
        ((value ≡ other) × (path ≡ other_path)) ⊎
        HaveCollision sha256 (path_inputs sha256 value key path)
        (path_inputs sha256 other key other_path) }
    ensures absence { (value key root : List ℕ) (path other_path : List (List ℕ)) →
        All (λ p. length p ≡ 32) path → All (λ p. length p ≡ 32) other_path →
        Leads sha256 (Some value) key path root → Leads sha256 None key other_path root →
        HaveCollision sha256 (path_inputs sha256 (Some value) key path)
        (path_inputs sha256 None key other_path) }
{}

//! What the roots and the paths are.

ghost use Rattle.sha2.specs.Sha256.{sha256};
ghost use Rattle.std.specs.Prelude.{◌≡◌, ◌-◌, ◌^◌, ◌<◌, ◌≤◌, ◌↔◌, ℕ};
ghost use Rattle.std.specs.Int.{IsPowerOfTwo};
ghost use Rattle.warg_merkle.specs.Trees.{IsRoot, IsPath, tree_hash, inclusion_path};
ghost use Rattle.warg_merkle.specs.Extensions.{start_index, subproof, IsSubproof, OwnPathsExtend};

/// The roots and the paths are those that RFC 9162 defines.
pub fn roots_and_paths()
    ensures roots { IsRoot sha256 (tree_hash sha256) }
    ensures paths { IsPath sha256 (inclusion_path sha256) }
{}

/// Consistency proofs are those that RFC 9162 defines, and a tree's own are accepted; the old root is part of none exactly
/// where it is a whole subtree's.
pub fn consistency_paths()
    ensures rfc { IsSubproof sha256 (subproof sha256) }
    ensures own { OwnPathsExtend sha256 }
    ensures whole { (first : ℕ) → 0 < first → first ≤ 2 ^ 64 →
        (start_index 64 (first - 1) ≡ 0) ↔ IsPowerOfTwo first }
{}

//! What the form of a map that keeps a node only where ways part has for a root.

ghost use Rattle.std.specs.Prelude.{◌≡◌, ℕ};
ghost use Rattle.sha2.specs.Sha256.{sha256};
ghost use Rattle.warg_merkle.specs.SparseMap.Maps.{map_root};
ghost use Rattle.warg_merkle.specs.SparseTree.Compressed.{Compressed, HasHeight, compressed_root, values_in};

/// The root of a tree that has a node only where two ways part is the root of the whole tree of the map that it holds.
pub fn compressed_maps()
    ensures { (height : ℕ) (tree : Compressed) → HasHeight height tree →
        compressed_root sha256 height tree ≡ map_root sha256 height (values_in tree) }
{}

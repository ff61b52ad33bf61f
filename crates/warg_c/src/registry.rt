//! What the handle of a registry holds.
use warg_transparency::RegistryTrees;

/// The trees of a registry.
#[derive(Drop)]
pub struct Registry {
    pub(crate) trees: RegistryTrees,
}

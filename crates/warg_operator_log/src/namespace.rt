//! What a namespace is to a registry.
ghost use Rattle.std.specs.Prelude.{◌≡◌, IfOk};
ghost use Rattle.std.specs.Cmp.{partial_equiv_from_equiv};

mod json;

use std::alloc::AllocError;

/// What a namespace is to a registry.
#[derive(Debug, Drop)]
pub enum NamespaceState {
    /// The registry keeps the logs of its packages itself.
    Defined,
    /// The packages are those of another registry.
    Imported {
        /// The other registry's name.
        registry: String,
    },
}

impl NamespaceState {
    ghost use Rattle.warg_operator_log.specs.NamespaceMap.{namespace_view};

    /// A copy.
    pub fn try_clone(&self) -> Result<NamespaceState, AllocError>
        ensures { IfOk result (λ copy. namespace_view copy ≡ namespace_view self.now) }
    {
        Ok(match self {
            NamespaceState::Defined => NamespaceState::Defined,
            NamespaceState::Imported { registry } => NamespaceState::Imported {
                registry: registry.clone()?,
            },
        })
    }
}

impl Clone for NamespaceState {
    ghost use Rattle.warg_operator_log.specs.NamespaceMap.{namespace_view};

    ghost is_clone = { λ a b. namespace_view b ≡ namespace_view a };

    fn clone(&self) -> Result<NamespaceState, AllocError> {
        self.try_clone()
    }
}

impl PartialEq for NamespaceState {
    ghost use Rattle.warg_operator_log.specs.NamespaceMap.{namespace_view};
    ghost use Rattle.warg_operator_log.specs.SameNamespaces.{same_namespace};
    ghost use Rattle.warg_operator_log.specs.SameNamespaceLaws.{shown_equiv};

    ghost eq = { λ a b. same_namespace (namespace_view a) (namespace_view b) };

    ghost laws = { partial_equiv_from_equiv shown_equiv };

    fn eq(&self, other: &NamespaceState) -> bool {
        match (self, other) {
            (NamespaceState::Defined, NamespaceState::Defined) => true,
            (NamespaceState::Imported { registry: a }, NamespaceState::Imported { registry: b }) =>
                a.as_str() == b.as_str(),
            _ => false,
        }
    }
}

impl Eq for NamespaceState {
    ghost use Rattle.warg_operator_log.specs.SameNamespaceLaws.{shown_equiv};

    ghost laws = { shown_equiv };
}

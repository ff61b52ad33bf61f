//! What a caller in C holds of a registry.
ghost use Rattle.std.specs.Prelude.{◌≡◌, None, Some, is_some};
ghost use Rattle.std.specs.Option.{option_map};

use crate::registry::Registry;
use crate::registry_pointer::RegistryPointer;
use std::alloc::Global;
use std::mem::replace;

/// A registry's log of leaves and its map, or none: all bytes 0 is none.
#[repr(C)]
pub struct WargRegistry {
    pub(crate) owned: RegistryPointer,
    is_open: bool,
    ghost is_right: { is_open ≡ is_some owned.kept },
}

impl WargRegistry {
    /// No registry.
    pub(crate) fn none(alloc: Global) -> WargRegistry
        ensures { result.owned.kept ≡ None }
    {
        WargRegistry {
            owned: RegistryPointer::none(alloc),
            is_open: false,
        }
    }

    pub(crate) fn of(held: Box<Registry>) -> WargRegistry
        ensures { result.owned.kept ≡ Some held.value }
    {
        WargRegistry {
            owned: RegistryPointer::of(held),
            is_open: true,
        }
    }

    pub(crate) fn into_box(self) -> Option<Box<Registry>>
        ensures { option_map (λ b. b.value) result ≡ self.owned.kept }
    {
        let WargRegistry { owned, is_open } = self;
        if is_open {
            Some(owned.into_box())
        } else {
            None
        }
    }

    /// Takes the trees out.
    pub(crate) fn take(&mut self, alloc: Global) -> Option<Box<Registry>>
        ensures taken { option_map (λ b. b.value) result ≡ self.old.owned.kept }
        ensures none { self.new.owned.kept ≡ None }
    {
        replace(self, WargRegistry::none(alloc)).into_box()
    }

    /// Puts trees in.
    pub(crate) fn put(&mut self, held: Box<Registry>)
        ensures { self.new.owned.kept ≡ Some held.value }
    {
        *self = WargRegistry::of(held);
    }
}

impl Drop for WargRegistry {
    fn drop(self) {
        drop(self.into_box());
    }
}

//! The block of the trees of a registry.
ghost use Rattle.std.specs.Prelude.{◌≡◌, None, Some, is_some, true, Option};
ghost use Rattle.warg_c.specs.KeptRegistry.{RegistryValue, registry_coded, registry_owns};

use crate::raw_box::RawBox;
use crate::registry::Registry;
use std::alloc::Global;
use std::marker::Model;

/// The trees of a registry on the heap, or none. Dropping it frees nothing.
#[repr(C)]
#[derive(Drop)]
pub struct RegistryPointer {
    at: *mut u8,
    alloc: Global,
    pub ghost kept: { Option RegistryValue } by { registry_coded },
}

impl Model for RegistryPointer {
    ghost also_owns = { λ h. registry_owns h.alloc h.at h.kept };
}

impl RegistryPointer {
    /// Nothing.
    pub fn none(alloc: Global) -> RegistryPointer
        ensures { result.kept ≡ None }
    {
        let at: *mut u8 = std::ptr::null_mut();
        RegistryPointer { at, alloc }
    }

    pub fn of(value: Box<Registry>) -> RegistryPointer
        ensures { result.kept ≡ Some value.value }
    {
        RegistryPointer::of_parts(RawBox::of(value))
    }

    pub fn into_box(self) -> Box<Registry>
        requires { is_some self.kept ≡ true }
        ensures { Some result.value ≡ self.kept }
    {
        self.into_parts().into_box()
    }

    fn of_parts(parts: RawBox<Registry, Global>) -> RegistryPointer
        ensures { result.kept ≡ Some parts.value }
    {
        let RawBox { ptr, alloc } = parts;
        RegistryPointer {
            at: ptr as *mut u8,
            alloc,
        }
    }

    fn into_parts(self) -> RawBox<Registry, Global>
        requires { is_some self.kept ≡ true }
        ensures { Some result.value ≡ self.kept }
    {
        let RegistryPointer { at, alloc } = self;
        RawBox {
            ptr: at as *mut Registry,
            alloc,
        }
    }
}

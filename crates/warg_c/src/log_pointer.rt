//! The block of a log.
ghost use Rattle.std.specs.Prelude.{◌≡◌, None, Some, is_some, true, Option};
ghost use Rattle.warg_c.specs.Kept.{AnyLogValue, kept_coded, kept_owns};

use crate::any_log::AnyLog;
use crate::raw_box::RawBox;
use std::alloc::Global;
use std::marker::Model;

/// A log on the heap, or none. Dropping it frees nothing.
#[repr(C)]
#[derive(Drop)]
pub struct LogPointer {
    at: *mut u8,
    alloc: Global,
    pub ghost kept: { Option AnyLogValue } by { kept_coded },
}

impl Model for LogPointer {
    ghost also_owns = { λ h. kept_owns h.alloc h.at h.kept };
}

impl LogPointer {
    /// Nothing.
    pub fn none(alloc: Global) -> LogPointer
        ensures { result.kept ≡ None }
    {
        let at: *mut u8 = std::ptr::null_mut();
        LogPointer { at, alloc }
    }

    pub fn of(value: Box<AnyLog>) -> LogPointer
        ensures { result.kept ≡ Some value.value }
    {
        LogPointer::of_parts(RawBox::of(value))
    }

    pub fn into_box(self) -> Box<AnyLog>
        requires { is_some self.kept ≡ true }
        ensures { Some result.value ≡ self.kept }
    {
        self.into_parts().into_box()
    }

    fn of_parts(parts: RawBox<AnyLog, Global>) -> LogPointer
        ensures { result.kept ≡ Some parts.value }
    {
        let RawBox { ptr, alloc } = parts;
        LogPointer {
            at: ptr as *mut u8,
            alloc,
        }
    }

    fn into_parts(self) -> RawBox<AnyLog, Global>
        requires { is_some self.kept ≡ true }
        ensures { Some result.value ≡ self.kept }
    {
        let LogPointer { at, alloc } = self;
        RawBox {
            ptr: at as *mut AnyLog,
            alloc,
        }
    }
}

// A log may go to another thread: all that it owns may.
unsafe impl Send for LogPointer {}

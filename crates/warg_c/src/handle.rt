//! What a caller in C holds of a log.
ghost use Rattle.std.specs.Prelude.{◌≡◌, None, Some, is_some};
ghost use Rattle.std.specs.Option.{option_map};

use crate::any_log::AnyLog;
use crate::log_pointer::LogPointer;
use std::alloc::Global;
use std::mem::replace;

/// A log, or none: all bytes 0 is none.
#[repr(C)]
pub struct WargLog {
    pub(crate) owned: LogPointer,
    is_open: bool,
    ghost is_right: { is_open ≡ is_some owned.kept },
}

impl WargLog {
    /// No log.
    pub(crate) fn none(alloc: Global) -> WargLog
        ensures { result.owned.kept ≡ None }
    {
        WargLog {
            owned: LogPointer::none(alloc),
            is_open: false,
        }
    }

    pub(crate) fn of(state: Box<AnyLog>) -> WargLog
        ensures { result.owned.kept ≡ Some state.value }
    {
        WargLog {
            owned: LogPointer::of(state),
            is_open: true,
        }
    }

    pub(crate) fn into_box(self) -> Option<Box<AnyLog>>
        ensures { option_map (λ b. b.value) result ≡ self.owned.kept }
    {
        let WargLog { owned, is_open } = self;
        if is_open {
            Some(owned.into_box())
        } else {
            None
        }
    }

    /// Takes the log out.
    pub(crate) fn take(&mut self, alloc: Global) -> Option<Box<AnyLog>>
        ensures taken { option_map (λ b. b.value) result ≡ self.old.owned.kept }
        ensures none { self.new.owned.kept ≡ None }
    {
        replace(self, WargLog::none(alloc)).into_box()
    }

    /// Puts a log in.
    pub(crate) fn put(&mut self, state: Box<AnyLog>)
        ensures { self.new.owned.kept ≡ Some state.value }
    {
        *self = WargLog::of(state);
    }
}

impl Drop for WargLog {
    fn drop(self) {
        drop(self.into_box());
    }
}

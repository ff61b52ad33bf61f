//! JSON of values, over `serde_json`'s `Value`. To implement [`JsonValue`] for a type of your own, use [`members`];
//! maps are in the crate `warg_saved_states`.
ghost use Rattle.std.specs.Prelude.{◌≡◌, List, Result, Ok, IfOk, true};
ghost use Rattle.std.specs.Cmp.{IsEquivalence};
ghost use Rattle.serde_json.specs.Data.{Data};
ghost use Rattle.serde_json.specs.View.{view};
ghost use Rattle.warg_crypto.specs.declared.json.error.JsonError.{JsonError};
ghost use Rattle.warg_crypto.specs.Json.Json.{AreReadBack, ReturnsOrNoMemory, ReadsBack, Version};
ghost use Rattle.warg_crypto.specs.Json.Within.{AreWithin};

mod error;
pub mod laws;
pub mod members;
mod numbers;
mod texts;

pub use error::{Incoherence, JsonError};
use serde_json::Value;
use std::alloc::Global;

/// A value that is written as JSON and read back as one that is `==`.
pub trait JsonValue: Eq + Sized {
    // The value as plain data, which is what is written of it and what is read.
    ghost Plain: { Type 0 };

    ghost plain: { Self → Plain };

    // What is written, or why nothing is.
    ghost writes: { Plain → Result Data JsonError };

    // What is read, or the first fault.
    ghost reads: { Data → Result Plain JsonError };

    // The versions among what is written: that their texts read back is all that is asked of a
    // value so that what was written of it reads back.
    ghost versions: { Plain → List Version };

    // Holds of values that are equal: what was written reads back as an equivalent value, which is `==` to it.
    ghost equivalent: { Plain → Plain → Type 0 };

    /// The JSON of the value.
    fn to_value(&self, alloc: Global) -> Result<Value, JsonError>
        ensures written { ReturnsOrNoMemory view result (writes (plain self.now)) }
        ensures back { AreReadBack (versions (plain self.now)) →
            IfOk result (λ v. ReadsBack reads equivalent (plain self.now) (view v)) };

    /// The value of JSON, or its first fault.
    fn from_value(alloc: Global, value: &Value) -> Result<Self, JsonError>
        ensures { ReturnsOrNoMemory plain result (reads (view value.now)) };

    /// What is equivalent is `==`, which is an equivalence by [`Eq`].
    ghost equivalent_equal: { IsEquivalence Self.eq → (x y : Self) → equivalent (plain x) (plain y) →
        Self.eq x y ≡ true };

    /// The text of each version stands in what is written.
    ghost versions_written: { (x : Plain) (d : Data) → writes x ≡ Ok d → AreWithin (versions x) d };

    /// The texts of the versions of what was read read back, so it reads back once it is written again.
    ghost versions_read: { (x : Plain) (d : Data) → reads d ≡ Ok x → AreReadBack (versions x) };
}

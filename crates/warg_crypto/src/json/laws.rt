//! Laws of what is written and read. None of these functions does anything.

ghost use Rattle.std.specs.Prelude.{◌≡◌, ◌↔◌, true, Ok, Err, Option, Some};
ghost use Rattle.serde_json.specs.Data.{Data, null};
ghost use Rattle.warg_crypto.specs.declared.json.error.Incoherence.{Incoherence};
ghost use Rattle.warg_crypto.specs.declared.json.error.JsonError.{JsonError};
ghost use Rattle.warg_crypto.specs.Json.Json.{AreReadBack, IsReadBack, ReadsBack};
ghost use Rattle.warg_crypto.specs.Json.Members.{OptionReadsBack, option_json};
ghost use Rattle.warg_crypto.specs.Json.Within.{AreWithin};

use crate::json::{Incoherence, JsonError, JsonValue};

/// What is read of JSON that reads back as a value is `==` to it.
pub fn what_reads_back_is_equal<T: JsonValue>()
    ensures { (x y : T) (d : Data) → ReadsBack T.reads T.equivalent (T.plain x) d →
        T.reads d ≡ Ok (T.plain y)
        → T.eq x y ≡ true }
{}

/// The text of each of a value's versions stands in what is written of it, and reads back where the value was read.
pub fn versions_are_of_texts<T: JsonValue>()
    ensures written { (x : T.Plain) (d : Data) → T.writes x ≡ Ok d → AreWithin (T.versions x) d }
    ensures read { (x : T.Plain) (d : Data) → T.reads d ≡ Ok x → AreReadBack (T.versions x) }
{}

/// What was written of a value that may be missing reads back as the same one, where null is none.
pub fn optional_values_read_back<T: JsonValue>()
    ensures { (o : Option T.Plain) (d : Option Data) (e : JsonError) → T.reads null ≡ Err e
        → ((x : T.Plain) → o ≡ Some x → IsReadBack T.writes T.reads T.equivalent x) →
        option_json T.writes o ≡ Ok d
        → OptionReadsBack T.reads T.equivalent o d }
{}

/// When `==` of why a saved state does not fit together, or of why a value has no JSON or JSON is no value, is true: exactly
/// where both are the same case and hold the same.
pub fn equality()
    ensures incoherences { (a b : Incoherence) →
        (⟦<Incoherence as PartialEq>⟧.eq a b ≡ true) ↔ (a ≡ b) }
    ensures json_errors { (a b : JsonError) → (⟦<JsonError as PartialEq>⟧.eq a b ≡ true) ↔ (a ≡ b) }
{}

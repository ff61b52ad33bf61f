//! When errors are equal. It has no effect.
ghost use Rattle.std.specs.Prelude.{◌≡◌, ◌↔◌, true};
ghost use Rattle.warg_saved_states.specs.declared.error.JsonTextError.{JsonTextError};

use crate::error::JsonTextError;

/// `==` of two reasons why a text gives no value is true exactly where they are identical.
pub fn equality()
    ensures json_text_errors { (a b : JsonTextError) →
        (⟦<JsonTextError as PartialEq>⟧.eq a b ≡ true) ↔ (a ≡ b) }
{}

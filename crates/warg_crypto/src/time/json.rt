//! JSON of times, which are written as their text.

ghost use Rattle.std.specs.Prelude.{◌≡◌, []};
ghost use Rattle.serde_json.specs.View.{view};
ghost use Rattle.warg_crypto.specs.Json.EqualLaws.{same_equal};
ghost use Rattle.warg_crypto.specs.Json.Json.{Returns};
ghost use Rattle.warg_crypto.specs.Time.TimeJson.{time_in, time_json};
ghost use Rattle.warg_crypto.specs.Time.Times.{Time};

use crate::json::members::{string_value, text_in};
use crate::json::{JsonError, JsonValue};
use crate::time::time::Timestamp;
use serde_json::Value;
use std::alloc::Global;

impl JsonValue for Timestamp {
    ghost Plain = { Time };

    ghost plain = { λ x. x };

    ghost writes = { time_json };

    ghost reads = { time_in };

    ghost versions = { λ _. [] };

    ghost equivalent = { λ x y. x ≡ y };

    ghost equivalent_equal = { same_equal };

    ghost versions_written = { λ x d h. tt };

    ghost versions_read = { λ x d h. tt };

    fn to_value(&self, alloc: Global) -> Result<Value, JsonError> {
        Ok(string_value(self.to_text(alloc)?))
    }

    /// The value of JSON, or its first fault. It takes no memory.
    fn from_value(_alloc: Global, value: &Value) -> Result<Timestamp, JsonError>
        ensures { Returns (λ x. x) result (time_in (view value.now)) }
    {
        Timestamp::parse_text(text_in(value)?)
    }
}

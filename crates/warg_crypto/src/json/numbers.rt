//! JSON of whole numbers.

ghost use Rattle.std.specs.Prelude.{◌≡◌, ◌^◌, ℕ, []};
ghost use Rattle.std.specs.Cmp.{unsigned_Decides};
ghost use Rattle.serde_json.specs.View.{view};
ghost use Rattle.warg_crypto.specs.Json.Json.{Returns};
ghost use Rattle.warg_crypto.specs.Json.Numbers.{number_below, number_in, number_json};

use crate::json::{JsonError, JsonValue};
use serde_json::Value;
use std::alloc::Global;

/// The number of a value that is a whole one below 2^64, else `WrongType`.
fn number_in(value: &Value) -> Result<u64, JsonError>
    ensures { Returns (λ n. n) result (number_in (view value.now)) }
{
    value.as_u64().ok_or(JsonError::WrongType)
}

impl JsonValue for u64 {
    ghost Plain = { ℕ };

    ghost plain = { λ n. n };

    ghost writes = { number_json };

    ghost reads = { number_in };

    ghost versions = { λ _. [] };

    ghost equivalent = { λ x y. x ≡ y };

    ghost equivalent_equal = { λ _ x y h. (unsigned_Decides x y).1 h };

    ghost versions_written = { λ x d h. tt };

    ghost versions_read = { λ x d h. tt };

    fn to_value(&self, _alloc: Global) -> Result<Value, JsonError> {
        Ok(Value::from(*self))
    }

    /// The value of JSON, or its first fault. It takes no memory.
    fn from_value(_alloc: Global, value: &Value) -> Result<u64, JsonError>
        ensures { Returns (λ n. n) result (number_in (view value.now)) }
    {
        number_in(value)
    }
}

impl JsonValue for u32 {
    ghost Plain = { ℕ };

    ghost plain = { λ n. n };

    ghost writes = { number_json };

    ghost reads = { number_below (2 ^ 32) };

    ghost versions = { λ _. [] };

    ghost equivalent = { λ x y. x ≡ y };

    ghost equivalent_equal = { λ _ x y h. (unsigned_Decides x y).1 h };

    ghost versions_written = { λ x d h. tt };

    ghost versions_read = { λ x d h. tt };

    fn to_value(&self, _alloc: Global) -> Result<Value, JsonError> {
        Ok(Value::from(*self))
    }

    /// The value of JSON, or its first fault. It takes no memory.
    fn from_value(_alloc: Global, value: &Value) -> Result<u32, JsonError>
        ensures { Returns (λ n. n) result (number_below (2 ^ 32) (view value.now)) }
    {
        let number = number_in(value)?;
        if number > u32::MAX as u64 {
            return Err(JsonError::WrongType);
        }
        Ok(number as u32)
    }
}

impl JsonValue for usize {
    ghost Plain = { ℕ };

    ghost plain = { λ n. n };

    ghost writes = { number_json };

    ghost reads = { number_in };

    ghost versions = { λ _. [] };

    ghost equivalent = { λ x y. x ≡ y };

    ghost equivalent_equal = { λ _ x y h. (unsigned_Decides x y).1 h };

    ghost versions_written = { λ x d h. tt };

    ghost versions_read = { λ x d h. tt };

    fn to_value(&self, _alloc: Global) -> Result<Value, JsonError> {
        Ok(Value::from(*self))
    }

    /// The value of JSON, or its first fault. It takes no memory.
    fn from_value(_alloc: Global, value: &Value) -> Result<usize, JsonError>
        ensures { Returns (λ n. n) result (number_in (view value.now)) }
    {
        Ok(number_in(value)? as usize)
    }
}

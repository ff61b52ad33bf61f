//! JSON of the ids of records.

ghost use Rattle.std.specs.Prelude.{◌≡◌, []};
ghost use Rattle.warg_crypto.specs.Json.EqualLaws.{same_equal};
ghost use Rattle.serde_json.specs.View.{view};
ghost use Rattle.warg_crypto.specs.Json.Json.{Returns};
ghost use Rattle.warg_log_records.specs.RecordIdJson.{record_id_in, record_id_json};
ghost use Rattle.warg_log_records.specs.declared.record_id.RecordId.{RecordId};

use crate::record_id::RecordId;
use serde_json::Value;
use std::alloc::Global;
use warg_crypto::hash::AnyHash;
use warg_crypto::json::{JsonError, JsonValue};

impl JsonValue for RecordId {
    ghost Plain = { RecordId };

    ghost plain = { λ x. x };

    ghost writes = { record_id_json };

    ghost reads = { record_id_in };

    ghost versions = { λ _. [] };

    ghost equivalent = { λ x y. x ≡ y };

    ghost equivalent_equal = { same_equal };

    ghost versions_written = { λ x d h. tt };

    ghost versions_read = { λ x d h. tt };

    fn to_value(&self, alloc: Global) -> Result<Value, JsonError> {
        AnyHash::from(*self).to_value(alloc)
    }

    /// The value of JSON, or its first fault. It takes no memory.
    fn from_value(alloc: Global, value: &Value) -> Result<RecordId, JsonError>
        ensures { Returns (λ x. x) result (record_id_in (view value.now)) }
    {
        Ok(RecordId::from(AnyHash::from_value(alloc, value)?))
    }
}

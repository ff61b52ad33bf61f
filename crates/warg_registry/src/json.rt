//! JSON of ids, names, checkpoints and leaves.

ghost use Rattle.std.specs.Prelude.{◌≡◌, List, [], ℕ, IfErr, IsOk};
ghost use Rattle.warg_crypto.specs.Json.EqualLaws.{same_equal};
ghost use Rattle.serde_json.specs.View.{view};
ghost use Rattle.warg_crypto.specs.Json.Json.{Returns, ReturnsOrNoMemory};
ghost use Rattle.warg_crypto.specs.declared.json.error.JsonError.TheVariants.{OutOfMemory};
ghost use Rattle.warg_registry.specs.declared.checkpoint.Checkpoint.{Checkpoint};
ghost use Rattle.warg_registry.specs.declared.checkpoint.TimestampedCheckpoint.{TimestampedCheckpoint};
ghost use Rattle.warg_registry.specs.declared.leaf.LogLeaf.{LogLeaf};
ghost use Rattle.warg_registry.specs.declared.log_id.LogId.{LogId};
ghost use Rattle.warg_registry.specs.RegistryJson.{checkpoint_in, checkpoint_json, log_id_in, log_id_json, log_leaf_in, log_leaf_json, package_name_in, package_name_json, timestamped_checkpoint_in, timestamped_checkpoint_json};

use crate::{Checkpoint, LogId, LogLeaf, PackageName, TimestampedCheckpoint};
use serde_json::{Map, Value};
use std::alloc::Global;
use warg_crypto::hash::AnyHash;
use warg_crypto::json::members::{member_in, object_value, put_value, text_in, text_value};
use warg_crypto::json::{JsonError, JsonValue};
use warg_log_records::RecordId;

impl JsonValue for LogId {
    ghost Plain = { LogId };

    ghost plain = { λ x. x };

    ghost writes = { log_id_json };

    ghost reads = { log_id_in };

    ghost versions = { λ _. [] };

    ghost equivalent = { λ x y. x ≡ y };

    ghost equivalent_equal = { same_equal };

    ghost versions_written = { λ x d h. tt };

    ghost versions_read = { λ x d h. tt };

    fn to_value(&self, alloc: Global) -> Result<Value, JsonError> {
        AnyHash::from(*self).to_value(alloc)
    }

    /// The value of JSON, or its first fault. It takes no memory.
    fn from_value(alloc: Global, value: &Value) -> Result<LogId, JsonError>
        ensures { Returns (λ x. x) result (log_id_in (view value.now)) }
    {
        Ok(LogId::from(AnyHash::from_value(alloc, value)?))
    }
}

impl JsonValue for PackageName {
    ghost Plain = { List ℕ };

    ghost plain = { λ x. x };

    ghost writes = { package_name_json };

    ghost reads = { package_name_in };

    ghost versions = { λ _. [] };

    ghost equivalent = { λ x y. x ≡ y };

    ghost equivalent_equal = { same_equal };

    ghost versions_written = { λ x d h. tt };

    ghost versions_read = { λ x d h. tt };

    fn to_value(&self, alloc: Global) -> Result<Value, JsonError> {
        text_value(alloc, self.as_str())
    }

    fn from_value(alloc: Global, value: &Value) -> Result<PackageName, JsonError>
        ensures read { ReturnsOrNoMemory (λ x. x) result (package_name_in (view value.now)) }

        // Only a name takes memory: where it is refused, the value is one.
        ensures memory { IfErr result (λ e. e ≡ OutOfMemory →
            IsOk (package_name_in (view value.now))) }
    {
        let text = text_in(value)?;
        if !PackageName::is_valid(text) {
            return Err(JsonError::BadText);
        }
        match PackageName::new(alloc, text) {
            Ok(name) => Ok(name),
            Err(_) => Err(JsonError::OutOfMemory),
        }
    }
}

impl JsonValue for Checkpoint {
    ghost Plain = { Checkpoint };

    ghost plain = { λ x. x };

    ghost writes = { checkpoint_json };

    ghost reads = { checkpoint_in };

    ghost versions = { λ _. [] };

    ghost equivalent = { λ x y. x ≡ y };

    ghost equivalent_equal = { same_equal };

    ghost versions_written = { λ x d h. tt };

    ghost versions_read = { λ x d h. tt };

    fn to_value(&self, alloc: Global) -> Result<Value, JsonError> {
        let mut map = Map::new(alloc);
        put_value(&mut map, alloc, "logRoot", &self.log_root)?;
        put_value(&mut map, alloc, "logLength", &self.log_length)?;
        put_value(&mut map, alloc, "mapRoot", &self.map_root)?;
        Ok(object_value(map))
    }

    /// The value of JSON, or its first fault. It takes no memory.
    fn from_value(alloc: Global, value: &Value) -> Result<Checkpoint, JsonError>
        ensures { Returns (λ x. x) result (checkpoint_in (view value.now)) }
    {
        let log_root = AnyHash::from_value(alloc, member_in(value, "logRoot")?)?;
        let log_length = usize::from_value(alloc, member_in(value, "logLength")?)?;
        let map_root = AnyHash::from_value(alloc, member_in(value, "mapRoot")?)?;
        Ok(Checkpoint {
            log_root,
            log_length,
            map_root,
        })
    }
}

impl JsonValue for TimestampedCheckpoint {
    ghost Plain = { TimestampedCheckpoint };

    ghost plain = { λ x. x };

    ghost writes = { timestamped_checkpoint_json };

    ghost reads = { timestamped_checkpoint_in };

    ghost versions = { λ _. [] };

    ghost equivalent = { λ x y. x ≡ y };

    ghost equivalent_equal = { same_equal };

    ghost versions_written = { λ x d h. tt };

    ghost versions_read = { λ x d h. tt };

    fn to_value(&self, alloc: Global) -> Result<Value, JsonError> {
        let mut map = Map::new(alloc);
        put_value(&mut map, alloc, "logRoot", &self.checkpoint.log_root)?;
        put_value(&mut map, alloc, "logLength", &self.checkpoint.log_length)?;
        put_value(&mut map, alloc, "mapRoot", &self.checkpoint.map_root)?;
        put_value(&mut map, alloc, "timestamp", &self.timestamp)?;
        Ok(object_value(map))
    }

    /// The value of JSON, or its first fault. It takes no memory.
    fn from_value(alloc: Global, value: &Value) -> Result<TimestampedCheckpoint, JsonError>
        ensures { Returns (λ x. x) result (timestamped_checkpoint_in (view value.now)) }
    {
        let checkpoint = Checkpoint::from_value(alloc, value)?;
        let timestamp = u64::from_value(alloc, member_in(value, "timestamp")?)?;
        Ok(TimestampedCheckpoint {
            checkpoint,
            timestamp,
        })
    }
}

impl JsonValue for LogLeaf {
    ghost Plain = { LogLeaf };

    ghost plain = { λ x. x };

    ghost writes = { log_leaf_json };

    ghost reads = { log_leaf_in };

    ghost versions = { λ _. [] };

    ghost equivalent = { λ x y. x ≡ y };

    ghost equivalent_equal = { same_equal };

    ghost versions_written = { λ x d h. tt };

    ghost versions_read = { λ x d h. tt };

    fn to_value(&self, alloc: Global) -> Result<Value, JsonError> {
        let mut map = Map::new(alloc);
        put_value(&mut map, alloc, "logId", &self.log_id)?;
        put_value(&mut map, alloc, "recordId", &self.record_id)?;
        Ok(object_value(map))
    }

    /// The value of JSON, or its first fault. It takes no memory.
    fn from_value(alloc: Global, value: &Value) -> Result<LogLeaf, JsonError>
        ensures { Returns (λ x. x) result (log_leaf_in (view value.now)) }
    {
        let log_id = LogId::from_value(alloc, member_in(value, "logId")?)?;
        let record_id = RecordId::from_value(alloc, member_in(value, "recordId")?)?;
        Ok(LogLeaf { log_id, record_id })
    }
}

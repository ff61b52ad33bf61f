//! JSON of a head.

ghost use Rattle.std.specs.Prelude.{◌≡◌, [], codes, Ok, OnOk, OnErr, Option};
ghost use Rattle.serde_json.specs.Data.{Data};
ghost use Rattle.serde_json.specs.View.{members_view, view};
ghost use Rattle.warg_crypto.specs.Json.EqualLaws.{same_equal};
ghost use Rattle.warg_crypto.specs.Json.Json.{Returns, ReturnsOrNoMemory};
ghost use Rattle.warg_crypto.specs.Json.Members.{put_option, put_some};
ghost use Rattle.warg_crypto.specs.Json.Numbers.{number_json};
ghost use Rattle.warg_log.specs.HeadJson.{head_in, head_json, unless_zero, version_in, version_or_zero};
ghost use Rattle.warg_log.specs.declared.head.Head.{Head};

use crate::head::Head;
use serde_json::{Map, Value};
use std::alloc::Global;
use warg_crypto::json::members::{member_in, members_in, object_value, put_value};
use warg_crypto::json::{JsonError, JsonValue};
use warg_crypto::time::Timestamp;
use warg_log_records::RecordId;

/// Puts the version, unless it is 0.
fn put_version(map: &mut Map<String, Value>, alloc: Global, version: u32) -> Result<(), JsonError>
    ensures written { ReturnsOrNoMemory (λ _. members_view map.new.entries) result
        (put_option number_json (codes "version") (unless_zero version)
        (members_view map.old.entries)) }
    ensures back { OnOk result ((d : Option Data) × (version_or_zero d ≡ Ok version)
        × (members_view map.new.entries ≡
        put_some (codes "version") d (members_view map.old.entries))) }
{
    if version == 0 {
        return Ok(());
    }
    put_value(map, alloc, "version", &version)
}

/// The version of a head's JSON, 0 where it is missing.
fn version_in(alloc: Global, value: &Value) -> Result<u32, JsonError>
    ensures { Returns (λ n. n) result (version_in (view value.now)) }
{
    let _members = members_in(value)?;
    let Some(version) = value.get("version") else {
        return Ok(0);
    };
    u32::from_value(alloc, version)
}

impl JsonValue for Head {
    ghost Plain = { Head };

    ghost plain = { λ h. h };

    ghost writes = { head_json };

    ghost reads = { head_in };

    ghost versions = { λ _. [] };

    ghost equivalent = { λ g h. g ≡ h };

    ghost equivalent_equal = { same_equal };

    ghost versions_written = { λ x d h. tt };

    ghost versions_read = { λ x d h. tt };

    fn to_value(&self, alloc: Global) -> Result<Value, JsonError> {
        let mut map = Map::new(alloc);
        put_value(&mut map, alloc, "digest", &self.digest)?;
        put_value(&mut map, alloc, "timestamp", &self.timestamp)?;
        put_version(&mut map, alloc, self.version)?;
        Ok(object_value(map))
    }

    /// The value of JSON, or its first fault. It takes no memory.
    fn from_value(alloc: Global, value: &Value) -> Result<Head, JsonError>
        ensures { Returns (λ h. h) result (head_in (view value.now)) }
    {
        let digest = RecordId::from_value(alloc, member_in(value, "digest")?)?;
        let timestamp = Timestamp::from_value(alloc, member_in(value, "timestamp")?)?;
        let version = version_in(alloc, value)?;
        Ok(Head {
            digest,
            timestamp,
            version,
        })
    }
}

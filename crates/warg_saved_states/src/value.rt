//! The values of maps, as JSON.
ghost use Rattle.std.specs.Prelude.{◌≡◌, List, [], Result, Ok, Err, IfOk, IfErr, OnOk, refl};
ghost use Rattle.serde_json.specs.Data.{Data};
ghost use Rattle.serde_json.specs.View.{view};
ghost use Rattle.warg_crypto.specs.declared.json.error.JsonError.{JsonError};
ghost use Rattle.warg_crypto.specs.Json.Json.{AreReadBack, ReturnsOrNoMemory, IsReadBack, ReadsBack, Version};
ghost use Rattle.warg_crypto.specs.Json.JsonTexts.{key_in, key_json};
ghost use Rattle.warg_crypto.specs.NamedBytes.{NamedBytes};
ghost use Rattle.warg_saved_states.specs.Canonical.{WritesCanonical, value_depth};
ghost use Rattle.warg_saved_states.specs.Next.{ReadsNext, apart_memory};
ghost use Rattle.warg_saved_states.specs.Writes.{WritesText};

use crate::error::ReadFault;
use crate::read::read_value;
use json::{Reader, Writer};
use serde_json::Value;
use std::alloc::Global;
use warg_crypto::json::{JsonError, JsonValue};
use warg_crypto::signing::PublicKey;

/// A value of a map of a saved state. A set, which is no type of this repository's, is one too.
pub trait SavedValue: Drop {
    // The value as plain data.
    ghost Plain: { Type 0 };

    ghost plain: { Self → Plain };

    // What is written, or why nothing is.
    ghost writes: { Plain → Result Data JsonError };

    // What is read, or the first fault.
    ghost reads: { Data → Result Plain JsonError };

    // The versions whose texts have to read back so that the value does.
    ghost versions: { Plain → List Version };

    // What is written is canonical, so that its text is read as it.
    ghost canonical: { (x : Plain) → WritesCanonical value_depth (writes x) };

    /// Whether there is JSON of the value, or why there is none.
    fn can_save(&self) -> Result<(), JsonError>
        ensures ok { OnOk result ((d : Data) × (writes (plain self.now) ≡ Ok d)) }
        ensures back { OnOk result (AreReadBack (versions (plain self.now)) →
            IsReadBack writes reads (λ a b. a ≡ b) (plain self.now)) }
        ensures err { IfErr result (λ e. writes (plain self.now) ≡ Err e) };

    /// The JSON of the value.
    fn save(&self, alloc: Global) -> Result<Value, JsonError>
        ensures written { ReturnsOrNoMemory view result (writes (plain self.now)) }
        ensures back { AreReadBack (versions (plain self.now)) →
            IfOk result (λ v. ReadsBack reads (λ a b. a ≡ b) (plain self.now) (view v)) };

    /// Writes the JSON of the value behind what `out` holds. After an error `out` may hold a front of it.
    fn write(&self, alloc: Global, out: &mut Writer) -> Result<(), JsonError>
        ensures { WritesText result out.old out.new (writes (plain self.now)) };

    /// The value of JSON, or its first fault.
    fn load(alloc: Global, value: &Value) -> Result<Self, JsonError>
        ensures { ReturnsOrNoMemory plain result (reads (view value.now)) };

    /// The value of the JSON that comes next, or its first fault. Of what is not asked for nothing is made.
    fn read_next(
        alloc: Global,
        reader: &mut Reader<'_>,
        depth: usize,
    ) -> Result<Result<Self, JsonError>, ReadFault>
        ensures { ReadsNext plain reads depth result reader.old reader.new };
}

/// What was read, or its first fault, unless memory ran out.
pub fn unless_no_memory<T: Drop>(
    read: Result<T, JsonError>,
) -> Result<Result<T, JsonError>, ReadFault>
    ensures { result ≡ apart_memory read }
{
    match read {
        Ok(value) => Ok(Ok(value)),
        Err(JsonError::OutOfMemory) => Err(ReadFault::OutOfMemory),
        Err(fault) => Ok(Err(fault)),
    }
}

impl SavedValue for PublicKey {
    ghost Plain = { NamedBytes };

    ghost plain = { λ key. key };

    ghost writes = { key_json };

    ghost reads = { key_in };

    ghost versions = { λ _. [] };

    ghost canonical = { λ key. tt };

    fn can_save(&self) -> Result<(), JsonError> {
        let _name = self.algorithm();
        let _bytes = self.bytes();
        Ok(())
    }

    fn save(&self, alloc: Global) -> Result<Value, JsonError> {
        self.to_value(alloc)
    }

    fn write(&self, alloc: Global, out: &mut Writer) -> Result<(), JsonError> {
        let text = self.to_string(alloc)?;
        out.string(text.as_str())?;
        Ok(())
    }

    fn load(alloc: Global, value: &Value) -> Result<PublicKey, JsonError> {
        PublicKey::from_value(alloc, value)
    }

    fn read_next(
        alloc: Global,
        reader: &mut Reader<'_>,
        depth: usize,
    ) -> Result<Result<PublicKey, JsonError>, ReadFault> {
        match read_value(alloc, reader, depth, &[], 0) {
            Ok(json) => unless_no_memory(PublicKey::from_value(alloc, &json)),
            Err(fault) => Err(fault),
        }
    }
}

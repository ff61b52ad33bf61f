//! The keys of maps, as names of members.
ghost use Rattle.std.specs.Prelude.{◌≡◌, List, [], ◌∷◌, ℕ, true, Ok, Result, string_bytes, refl};
ghost use Rattle.std.specs.declared.alloc.Global.{Global};
ghost use Rattle.std.proofs.lemmas.Slice.Eq.{bytes_eq-Decides};
ghost use Rattle.semver.specs.Identifiers.{parts_of};
ghost use Rattle.warg_crypto.specs.declared.json.error.JsonError.{JsonError};
ghost use Rattle.warg_crypto.specs.Json.Json.{AreReadBack, ReturnsOrNoMemory, Version as VersionData, json_result};
ghost use Rattle.warg_saved_states.specs.MapNames.{text_name, text_named, version_name, version_named};
ghost use Rattle.warg_saved_states.specs.NameLaws.{text_back, version_back, version_read, one_version, same_version};

use semver::Version;
use std::alloc::{AllocError, Global};
use std::hash::Hash;
use warg_crypto::json::JsonError;
use warg_crypto::signing::KeyID;

/// A key of a map, which names a member of an object.
pub trait SavedName: Ord + Hash + Clone + Drop {
    // The key as plain data.
    ghost Plain: { Type 0 };

    ghost plain: { Self → Plain };

    // The name that is written.
    ghost name_of: { Plain → List ℕ };

    // What is read of a name, or its fault.
    ghost key_named: { List ℕ → Result Plain JsonError };

    // The versions whose texts have to read back so that the name does.
    ghost versions: { Plain → List VersionData };

    /// The name. The error is `OutOfMemory`.
    fn to_name(&self, alloc: Global) -> Result<String, JsonError>
        ensures { ReturnsOrNoMemory string_bytes result (json_result (name_of (plain self.now))) };

    /// What the name says, or its fault.
    fn from_name(alloc: Global, name: &str) -> Result<Self, JsonError>
        ensures { ReturnsOrNoMemory plain result (key_named name.now) };

    // A name that is read is written as it was.
    ghost back: { (name : List ℕ) (k : Plain) → key_named name ≡ Ok k → name_of k ≡ name };

    // The name that is written is read as the key.
    ghost read: { (k : Plain) → AreReadBack (versions k) → key_named (name_of k) ≡ Ok k };

    // Keys are equal exactly if they are one as plain data.
    ghost one_key: { (a b : Self) → Self.eq a b ≡ true → plain a ≡ plain b };

    ghost same_key: { (a b : Self) → plain a ≡ plain b → Self.eq a b ≡ true };
}

impl SavedName for KeyID {
    ghost Plain = { List ℕ };

    ghost plain = { λ id. id };

    ghost name_of = { text_name };

    ghost key_named = { text_named };

    ghost versions = { λ _. [] };

    ghost back = { text_back };

    ghost read = { λ k h. refl };

    ghost one_key = { λ a b h. (bytes_eq-Decides a b).0 h };

    ghost same_key = { λ a b h. (bytes_eq-Decides a b).1 h };

    fn to_name(&self, alloc: Global) -> Result<String, JsonError> {
        Ok(String::from_str(alloc, self.as_str())?)
    }

    fn from_name(alloc: Global, name: &str) -> Result<KeyID, JsonError> {
        Ok(KeyID::from(String::from_str(alloc, name)?))
    }
}

impl SavedName for String {
    ghost Plain = { List ℕ };

    ghost plain = { string_bytes };

    ghost name_of = { text_name };

    ghost key_named = { text_named };

    ghost versions = { λ _. [] };

    ghost back = { text_back };

    ghost read = { λ k h. refl };

    ghost one_key = { λ a b h. (bytes_eq-Decides (string_bytes a) (string_bytes b)).0 h };

    ghost same_key = { λ a b h. (bytes_eq-Decides (string_bytes a) (string_bytes b)).1 h };

    fn to_name(&self, alloc: Global) -> Result<String, JsonError> {
        Ok(String::from_str(alloc, self.as_str())?)
    }

    fn from_name(alloc: Global, name: &str) -> Result<String, JsonError> {
        Ok(String::from_str(alloc, name)?)
    }
}

/// The version of a text, else `BadText`.
fn version_of(alloc: Global, text: &str) -> Result<Version, JsonError>
    ensures { ReturnsOrNoMemory parts_of result (version_named text.now) }
{
    match Version::parse(alloc, text) {
        Ok(version) => Ok(version),
        Err(error) => Err(if error == semver::Error::from(AllocError) {
            JsonError::OutOfMemory
        } else {
            JsonError::BadText
        }),
    }
}

impl SavedName for Version {
    ghost Plain = { VersionData };

    ghost plain = { parts_of };

    ghost name_of = { version_name };

    ghost key_named = { version_named };

    ghost versions = { λ v. v ∷ [] };

    ghost back = { version_back };

    ghost read = { version_read };

    ghost one_key = { one_version };

    ghost same_key = { same_version };

    fn to_name(&self, alloc: Global) -> Result<String, JsonError> {
        Ok(self.to_string(alloc)?)
    }

    fn from_name(alloc: Global, name: &str) -> Result<Version, JsonError> {
        version_of(alloc, name)
    }
}

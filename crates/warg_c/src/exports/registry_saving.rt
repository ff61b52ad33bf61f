//! Saving the leaves of a registry, and beginning with them.
ghost use Rattle.std.specs.Prelude.{◌≡◌, ◌≢◌, ◌%◌, ◌≤◌, ◌↔◌, [], ◌∷◌, List, None, Err, IfOk, IfErr, IsSome, IsSomeAnd};
ghost use Rattle.std.specs.Prelude.{length, take, drop};
ghost use Rattle.warg_registry.specs.declared.leaf.LogLeaf.{LogLeaf};
ghost use Rattle.warg_transparency.specs.SavedLeaves.{AreSaved};
ghost use Rattle.warg_c.specs.declared.call_error.CallError.TheVariants.{OutOfMemory, BadArgument};
ghost use Rattle.warg_c.specs.Statuses.{WARG_OK, WARG_NOT_OPEN, WARG_OUT_OF_MEMORY, WARG_TOO_SMALL};
ghost use Rattle.warg_c.specs.Statuses.{WARG_BAD_ARGUMENT, IsOneOf, Unless};
ghost use Rattle.warg_c.specs.Texts.{NeedsRoom};

use crate::call_error::{CallError, status};
use crate::given::finish;
use crate::registry::Registry;
use crate::registry_handle::WargRegistry;
use std::alloc::Global;
use warg_transparency::{RegistryTrees, SavedLeavesError};

/// The leaves of a registry, for `warg_registry_resume`: 64 bytes for each, in the order in which they were pushed, the 32 of
/// its log's id and the 32 of its record's. So who keeps them may as well append 64 bytes for each leaf that is pushed.
#[unsafe(no_mangle)]
pub extern "C" fn warg_registry_save(
    alloc: Global,
    registry: &mut WargRegistry,
    bytes: &mut [u8],
    used: &mut usize,
) -> u32
    ensures statuses { IsOneOf (WARG_OK ∷ WARG_NOT_OPEN ∷ WARG_OUT_OF_MEMORY ∷ WARG_TOO_SMALL ∷
        []) result }
    ensures not_open { (result ≡ WARG_NOT_OPEN) ↔ (registry.old.owned.kept ≡ None) }
    ensures ok { result ≡ WARG_OK → IsSomeAnd registry.old.owned.kept (λ held.
        AreSaved held.trees (take used.new bytes.new)) }
    ensures out_of_memory { result ≡ WARG_OUT_OF_MEMORY → IsSome registry.old.owned.kept }
    ensures too_small { result ≡ WARG_TOO_SMALL → IsSomeAnd registry.old.owned.kept (λ held.
        NeedsRoom (AreSaved held.trees) used.new bytes.old) }
    ensures unchanged { registry.new.owned.kept ≡ registry.old.owned.kept }
    ensures buffer { result ≢ WARG_OK → bytes.new ≡ bytes.old }
    ensures used { Unless (WARG_OK ∷ WARG_TOO_SMALL ∷ []) result (used.new ≡ 0) }
    ensures behind { drop used.new bytes.new ≡ drop used.new bytes.old }
    ensures within { result ≢ WARG_TOO_SMALL → used.new ≤ length bytes.new }
{
    *used = 0;
    let Some(held) = registry.take(alloc) else {
        return status(Err(CallError::NotOpen));
    };
    let outcome = match held.trees.to_bytes(alloc) {
        Ok(saved) => Ok(saved),
        Err(_) => Err(CallError::OutOfMemory),
    };
    registry.put(held);
    finish(outcome, bytes, used)
}

// The trees of the leaves of these bytes, on the heap.
fn resumed(alloc: Global, saved: &[u8]) -> Result<Box<Registry>, CallError>
    ensures ok { IfOk result (λ b. AreSaved b.value.trees saved.now) }
    ensures reads_back { (leaves : List LogLeaf) → AreSaved leaves saved.now →
        IfOk result (λ b. b.value.trees ≡ leaves) }
    ensures err { IfErr result (λ f. (f ≢ BadArgument → f ≡ OutOfMemory)) }
    ensures bad_argument { (result ≡ Err BadArgument) ↔ (length saved.now % 64 ≢ 0) }
{
    let trees = match RegistryTrees::from_bytes(alloc, saved) {
        Ok(trees) => trees,
        Err(SavedLeavesError::BadLength) => return Err(CallError::BadArgument),
        Err(SavedLeavesError::OutOfMemory) => return Err(CallError::OutOfMemory),
    };
    match Box::new(alloc, Registry { trees }) {
        Ok(held) => Ok(held),
        Err(_) => Err(CallError::OutOfMemory),
    }
}

/// Begins a registry of the leaves that `warg_registry_save` gave, or of those of the first of them. One that was open is
/// closed first. All hashes are made anew: two for each leaf, and the map's for each log once, so that this costs less than
/// to push them.
///   WARG_OUT_OF_MEMORY: the registry is as it was, open if it was open.
///   WARG_BAD_ARGUMENT: the bytes are no multiple of 64; the registry is as it was.
#[unsafe(no_mangle)]
pub extern "C" fn warg_registry_resume(
    alloc: Global,
    registry: &mut WargRegistry,
    saved: &[u8],
) -> u32
    ensures statuses { IsOneOf (WARG_OK ∷ WARG_OUT_OF_MEMORY ∷ WARG_BAD_ARGUMENT ∷ []) result }
    ensures ok { result ≡ WARG_OK → IsSomeAnd registry.new.owned.kept (λ held.
        AreSaved held.trees saved.now) }
    ensures reads_back { result ≡ WARG_OK → (leaves : List LogLeaf) → AreSaved leaves saved.now →
        IsSomeAnd registry.new.owned.kept (λ held. held.trees ≡ leaves) }
    ensures bad_argument { (result ≡ WARG_BAD_ARGUMENT) ↔ (length saved.now % 64 ≢ 0) }
    ensures unchanged { result ≢ WARG_OK → registry.new.owned.kept ≡ registry.old.owned.kept }
{
    match resumed(alloc, saved) {
        Ok(held) => {
            registry.put(held);
            status(Ok(()))
        }
        Err(call_error) => status(Err(call_error)),
    }
}

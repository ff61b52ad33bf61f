//! The trees of a registry, for who keeps one: the log of all leaves, and the map of the heads of logs. Ids are texts
//! of ids, roots are texts of hashes (`sha256:` and 64 digits of hex).
ghost use Rattle.std.specs.Prelude.{◌≡◌, ◌≢◌, ◌≤◌, ◌↔◌, [], ◌∷◌, ◌++◌, None, IfOk, IfErr, IsSome, IsSomeAnd, OnErr};
ghost use Rattle.std.specs.Prelude.{length, take, drop};
ghost use Rattle.warg_c.specs.LogNames.{IsNoLeaf};
ghost use Rattle.warg_c.specs.ProofAnswers.{AreTwoHashes};
ghost use Rattle.warg_c.specs.Registries.{IsCount, IsPushed, TellsRoots};
ghost use Rattle.warg_c.specs.Statuses.{WARG_OK, WARG_NOT_OPEN, WARG_OUT_OF_MEMORY, WARG_TOO_SMALL};
ghost use Rattle.warg_c.specs.Statuses.{WARG_BAD_ARGUMENT, IsOneOf, Unless};
ghost use Rattle.warg_c.specs.Texts.{ErrorsAs, NeedsRoom};

use crate::call_error::{CallError, status};
use crate::given::finish_shown;
use crate::proof_text::leaf_in;
use crate::registry::Registry;
use crate::registry_handle::WargRegistry;
use std::alloc::{AllocError, Global};
use warg_transparency::RegistryTrees;

/// How many bytes are the text of the log's root, and the text of the map's behind it.
#[repr(C)]
#[derive(Clone, Copy)]
pub struct RootLengths {
    pub log_root_len: usize,
    pub map_root_len: usize,
}

// Trees of no leaves, on the heap.
fn opened(alloc: Global) -> Result<Box<Registry>, AllocError>
    ensures { IfOk result (λ b. b.value.trees ≡ []) }
{
    let trees = RegistryTrees::new(alloc)?;
    Ok(Box::new(alloc, Registry { trees })?)
}

/// Begins a registry of no leaves. One that was open is closed first.
///   WARG_OUT_OF_MEMORY: the registry is as it was, open if it was open.
#[unsafe(no_mangle)]
pub extern "C" fn warg_registry_open(alloc: Global, registry: &mut WargRegistry) -> u32
    ensures statuses { IsOneOf (WARG_OK ∷ WARG_OUT_OF_MEMORY ∷ []) result }
    ensures ok { result ≡ WARG_OK → IsSomeAnd registry.new.owned.kept (λ held. held.trees ≡ []) }
    ensures unchanged { result ≢ WARG_OK → registry.new.owned.kept ≡ registry.old.owned.kept }
{
    match opened(alloc) {
        Ok(held) => {
            registry.put(held);
            status(Ok(()))
        }
        Err(_) => status(Err(CallError::OutOfMemory)),
    }
}

/// Closes a registry and gives its memory back: it is none then. One that is none stays so; closing twice is harmless.
#[unsafe(no_mangle)]
pub extern "C" fn warg_registry_close(alloc: Global, registry: &mut WargRegistry)
    ensures { registry.new.owned.kept ≡ None }
{
    registry.take(alloc);
}

// Pushes the leaf of the texts, and says at which place it stands.
fn push(held: &mut Registry, log_id: &[u8], record_id: &[u8]) -> Result<u64, CallError>
    ensures ok { IfOk result (λ place. IsCount held.old.trees place ×
        IsPushed log_id.now record_id.now held.old.trees held.new.trees) }
    ensures err { IfErr result (ErrorsAs (AreTwoHashes log_id.now record_id.now) ⊥
        (IsNoLeaf log_id.now record_id.now)) }
    ensures unchanged { OnErr result (held.new.trees ≡ held.old.trees) }
{
    let leaf = leaf_in(log_id, record_id)?;
    let place = held.trees.len() as u64;
    match held.trees.push(&leaf) {
        Ok(()) => Ok(place),
        Err(_) => Err(CallError::OutOfMemory),
    }
}

/// Puts the leaf of a record of a log last onto the log of the registry, and makes the record the head of its log in
/// the map. `place` is where the leaf stands, counted from 0. Whether the record may come next is for the log's own
/// handle to say.
///   WARG_OUT_OF_MEMORY: both trees are as they were.
///   WARG_BAD_ARGUMENT: a text is none of an id; nothing is told of it.
#[unsafe(no_mangle)]
pub extern "C" fn warg_registry_push(
    alloc: Global,
    registry: &mut WargRegistry,
    log_id: &[u8],
    record_id: &[u8],
    place: &mut u64,
) -> u32
    ensures statuses { IsOneOf (WARG_OK ∷ WARG_NOT_OPEN ∷ WARG_OUT_OF_MEMORY ∷
        WARG_BAD_ARGUMENT ∷ []) result }
    ensures not_open { (result ≡ WARG_NOT_OPEN) ↔ (registry.old.owned.kept ≡ None) }
    ensures ok { result ≡ WARG_OK → IsSomeAnd registry.old.owned.kept (λ held.
        IsCount held.trees place.new × IsSomeAnd registry.new.owned.kept (λ new.
        IsPushed log_id.now record_id.now held.trees new.trees)) }
    ensures out_of_memory { result ≡ WARG_OUT_OF_MEMORY → AreTwoHashes log_id.now record_id.now }
    ensures bad_argument { result ≡ WARG_BAD_ARGUMENT → IsNoLeaf log_id.now record_id.now }
    ensures unchanged { result ≢ WARG_OK → registry.new.owned.kept ≡ registry.old.owned.kept }
    ensures kept { result ≢ WARG_OK → place.new ≡ place.old }
{
    let Some(mut held) = registry.take(alloc) else {
        return status(Err(CallError::NotOpen));
    };
    match push(&mut held, log_id, record_id) {
        Ok(at) => {
            registry.put(held);
            *place = at;
            status(Ok(()))
        }
        Err(call_error) => {
            registry.put(held);
            status(Err(call_error))
        }
    }
}

/// How many leaves were pushed.
#[unsafe(no_mangle)]
pub extern "C" fn warg_registry_length(
    alloc: Global,
    registry: &mut WargRegistry,
    length: &mut u64,
) -> u32
    ensures statuses { IsOneOf (WARG_OK ∷ WARG_NOT_OPEN ∷ []) result }
    ensures not_open { (result ≡ WARG_NOT_OPEN) ↔ (registry.old.owned.kept ≡ None) }
    ensures ok { result ≡ WARG_OK → IsSomeAnd registry.old.owned.kept (λ held.
        IsCount held.trees length.new) }
    ensures unchanged { registry.new.owned.kept ≡ registry.old.owned.kept }
    ensures kept { result ≢ WARG_OK → length.new ≡ length.old }
{
    let Some(held) = registry.take(alloc) else {
        return status(Err(CallError::NotOpen));
    };
    *length = held.trees.len() as u64;
    registry.put(held);
    status(Ok(()))
}

// Two texts, one behind the other.
pub(crate) fn joined(first: Vec<u8>, second: &[u8]) -> Result<Vec<u8>, AllocError>
    ensures { IfOk result (λ v. v.items ≡ first.items ++ second.now) }
{
    let mut text = first;
    text.extend_from_slice(second)?;
    Ok(text)
}

// The texts of both roots.
fn roots_of(alloc: Global, held: &Registry) -> Result<(Vec<u8>, RootLengths), AllocError>
    ensures { IfOk result (λ p. TellsRoots held.now.trees p.1 p.0.items) }
{
    let checkpoint = held.trees.checkpoint();
    let log_root = checkpoint.log_root.to_string(alloc)?;
    let map_root = checkpoint.map_root.to_string(alloc)?;
    let behind = map_root.as_bytes();
    let lengths = RootLengths {
        log_root_len: log_root.as_bytes().len(),
        map_root_len: behind.len(),
    };
    let text = joined(log_root.into_bytes(), behind)?;
    Ok((text, lengths))
}

/// The texts of both roots, one behind the other: that of the log of all leaves, and that of the map of the heads. With
/// the length they are what a checkpoint says (`warg_checkpoint_message`).
#[unsafe(no_mangle)]
pub extern "C" fn warg_registry_roots(
    alloc: Global,
    registry: &mut WargRegistry,
    text: &mut [u8],
    used: &mut usize,
    roots: &mut RootLengths,
) -> u32
    ensures statuses { IsOneOf (WARG_OK ∷ WARG_NOT_OPEN ∷ WARG_OUT_OF_MEMORY ∷ WARG_TOO_SMALL ∷
        []) result }
    ensures not_open { (result ≡ WARG_NOT_OPEN) ↔ (registry.old.owned.kept ≡ None) }
    ensures ok { result ≡ WARG_OK → IsSomeAnd registry.old.owned.kept (λ held.
        TellsRoots held.trees roots.new (take used.new text.new)) }
    ensures out_of_memory { result ≡ WARG_OUT_OF_MEMORY → IsSome registry.old.owned.kept }
    ensures too_small { result ≡ WARG_TOO_SMALL → IsSomeAnd registry.old.owned.kept (λ held.
        NeedsRoom (TellsRoots held.trees roots.new) used.new text.old) }
    ensures unchanged { registry.new.owned.kept ≡ registry.old.owned.kept }
    ensures buffer { result ≢ WARG_OK → text.new ≡ text.old }
    ensures used { Unless (WARG_OK ∷ WARG_TOO_SMALL ∷ []) result (used.new ≡ 0) }
    ensures behind { drop used.new text.new ≡ drop used.new text.old }
    ensures unshown { Unless (WARG_OK ∷ WARG_TOO_SMALL ∷ []) result (roots.new ≡ roots.old) }
    ensures within { result ≢ WARG_TOO_SMALL → used.new ≤ length text.new }
{
    *used = 0;
    let Some(held) = registry.take(alloc) else {
        return status(Err(CallError::NotOpen));
    };
    let outcome = match roots_of(alloc, &held) {
        Ok(told) => Ok(told),
        Err(_) => Err(CallError::OutOfMemory),
    };
    registry.put(held);
    finish_shown(outcome, text, used, roots)
}

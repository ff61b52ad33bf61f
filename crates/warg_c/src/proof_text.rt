//! The texts of hashes and of proofs among the arguments of calls.
ghost use Rattle.std.specs.Prelude.{◌≡◌, ◌⊎◌, Ok, IfOk, IfErr};
ghost use Rattle.warg_crypto.specs.HashText.{hash_of};
ghost use Rattle.warg_transparency.specs.Texts.{log_proof_of, map_proof_of};
ghost use Rattle.warg_c.specs.ForkAnswers.{IsCheckpointText, IsNoCheckpointText};
ghost use Rattle.warg_c.specs.ProofAnswers.{AreLeafTexts, IsNoText};
ghost use Rattle.warg_c.specs.ProofFaults.{tree_numbered};
ghost use Rattle.warg_c.specs.Texts.{Always, ErrorsAs};

use crate::call_error::CallError;
use std::alloc::Global;
use warg_crypto::hash::AnyHash;
use warg_log_records::RecordId;
use warg_registry::{Checkpoint, LogId, LogLeaf};
use warg_transparency::{LogProof, MapProof, ProofTextError};

/// The trees of a registry, on which proofs are.
#[derive(Clone, Copy, Debug, PartialEq, Eq)]
pub enum Tree {
    /// The log of all records: proofs of inclusion and of consistency.
    Log,
    /// The map of the heads of logs: proofs of presence and of absence.
    Map,
}

impl Tree {
    /// The tree that a number names.
    pub(crate) fn numbered(number: u32) -> Result<Tree, CallError>
        ensures { result ≡ tree_numbered number }
    {
        match number {
            0 => Ok(Tree::Log),
            1 => Ok(Tree::Map),
            _ => Err(CallError::BadArgument),
        }
    }
}

/// The hash of a text.
pub(crate) fn hash_in(text: &[u8]) -> Result<AnyHash, CallError>
    ensures ok { IfOk result (λ hash. hash_of text.now ≡ Ok hash) }
    ensures err { IfErr result (ErrorsAs ⊥ ⊥ (IsNoText hash_of text.now)) }
{
    let Ok(text) = str::from_utf8(text) else {
        return Err(CallError::BadArgument);
    };
    match text.parse::<AnyHash>() {
        Ok(hash) => Ok(hash),
        Err(_) => Err(CallError::BadArgument),
    }
}

/// The leaf of a record of a log, by the texts of their ids.
pub(crate) fn leaf_in(log_id: &[u8], record_id: &[u8]) -> Result<LogLeaf, CallError>
    ensures ok { IfOk result (AreLeafTexts log_id.now record_id.now) }
    ensures err { IfErr result (ErrorsAs ⊥ ⊥ (IsNoText hash_of log_id.now ⊎
        IsNoText hash_of record_id.now)) }
{
    let log = hash_in(log_id)?;
    let record = hash_in(record_id)?;
    Ok(LogLeaf {
        log_id: LogId::from(log),
        record_id: RecordId::from(record),
    })
}

/// The checkpoint of a log of this length, by the texts of both roots.
pub(crate) fn checkpoint_in(
    log_length: u64,
    log_root: &[u8],
    map_root: &[u8],
) -> Result<Checkpoint, CallError>
    ensures ok { IfOk result (IsCheckpointText (log_length, (log_root.now, map_root.now))) }
    ensures err { IfErr result (ErrorsAs ⊥ ⊥
        (IsNoCheckpointText (log_length, (log_root.now, map_root.now)))) }
{
    let log_root = hash_in(log_root)?;
    let map_root = hash_in(map_root)?;
    Ok(Checkpoint {
        log_root,
        log_length: log_length as usize,
        map_root,
    })
}

/// The proof on a log of a text.
pub(crate) fn log_proof_in(alloc: Global, text: &[u8]) -> Result<LogProof, CallError>
    ensures ok { IfOk result (λ proof. log_proof_of text.now ≡ Ok proof) }
    ensures err { IfErr result (ErrorsAs Always ⊥ (IsNoText log_proof_of text.now)) }
{
    let Ok(text) = str::from_utf8(text) else {
        return Err(CallError::BadArgument);
    };
    match LogProof::parse(alloc, text) {
        Ok(proof) => Ok(proof),
        Err(ProofTextError::OutOfMemory) => Err(CallError::OutOfMemory),
        Err(_) => Err(CallError::BadArgument),
    }
}

/// The proof on a map of a text.
pub(crate) fn map_proof_in(alloc: Global, text: &[u8]) -> Result<MapProof, CallError>
    ensures ok { IfOk result (λ proof. map_proof_of text.now ≡ Ok proof) }
    ensures err { IfErr result (ErrorsAs Always ⊥ (IsNoText map_proof_of text.now)) }
{
    let Ok(text) = str::from_utf8(text) else {
        return Err(CallError::BadArgument);
    };
    match MapProof::parse(alloc, text) {
        Ok(proof) => Ok(proof),
        Err(ProofTextError::OutOfMemory) => Err(CallError::OutOfMemory),
        Err(_) => Err(CallError::BadArgument),
    }
}

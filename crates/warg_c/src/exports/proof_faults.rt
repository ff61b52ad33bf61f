//! What is wrong with the text of a proof.
ghost use Rattle.std.specs.Prelude.{◌≡◌, ◌≢◌, ◌≤◌, [], ◌∷◌, Err, IfOk, IfErr, IsOk, length, take, drop};
ghost use Rattle.warg_transparency.specs.Texts.{log_proof_of, map_proof_of};
ghost use Rattle.warg_c.specs.ArgumentErrors.{argument_error_text};
ghost use Rattle.warg_c.specs.ProofFaults.{FaultLacks, FaultTells, IsFaultOf, IsNoTree, proof_fault_name};
ghost use Rattle.warg_c.specs.ProofFaults.{proof_on, tree_numbered};
ghost use Rattle.warg_c.specs.Statuses.{WARG_OK, WARG_OUT_OF_MEMORY, WARG_TOO_SMALL, WARG_NONE, WARG_BAD_ARGUMENT};
ghost use Rattle.warg_c.specs.Statuses.{IsOneOf, Unless};
ghost use Rattle.warg_c.specs.Texts.{Always, ErrorsAs, IsGiven, NeedsRoom};
ghost use Rattle.warg_c.specs.declared.argument_error.ArgumentError.TheVariants.{NoTree};

use crate::argument_error::ArgumentError;
use crate::call_error::CallError;
use crate::given::finish_text;
use crate::proof_text::Tree;
use std::alloc::Global;
use warg_transparency::{LogProof, MapProof, ProofTextError};

// Why a text is no proof on a log.
fn log_fault(alloc: Global, text: &str) -> Result<ProofTextError, CallError>
    ensures ok { IfOk result (λ e. log_proof_of text.now ≡ Err e) }
    ensures err { IfErr result (ErrorsAs Always (IsOk (log_proof_of text.now)) ⊥) }
{
    match LogProof::parse(alloc, text) {
        Ok(_) => Err(CallError::Absent),
        Err(ProofTextError::OutOfMemory) => Err(CallError::OutOfMemory),
        Err(fault) => Ok(fault),
    }
}

// Why a text is no proof on a map.
fn map_fault(alloc: Global, text: &str) -> Result<ProofTextError, CallError>
    ensures ok { IfOk result (λ e. map_proof_of text.now ≡ Err e) }
    ensures err { IfErr result (ErrorsAs Always (IsOk (map_proof_of text.now)) ⊥) }
{
    match MapProof::parse(alloc, text) {
        Ok(_) => Err(CallError::Absent),
        Err(ProofTextError::OutOfMemory) => Err(CallError::OutOfMemory),
        Err(fault) => Ok(fault),
    }
}

// Why bytes are no text of a proof on the tree.
fn fault_in(alloc: Global, tree: Tree, proof: &[u8]) -> Result<ProofTextError, CallError>
    ensures ok { IfOk result (IsFaultOf tree proof.now) }
    ensures err { IfErr result (ErrorsAs Always (IsOk (proof_on tree proof.now)) ⊥) }
{
    let Ok(text) = str::from_utf8(proof) else {
        return Ok(ProofTextError::BadBase64);
    };
    match tree {
        Tree::Log => log_fault(alloc, text),
        Tree::Map => map_fault(alloc, text),
    }
}

fn fault_name(fault: ProofTextError) -> &'static str
    ensures { result.now ≡ proof_fault_name fault }
{
    match fault {
        ProofTextError::TooLong => "TooLong",
        ProofTextError::BadBase64 => "BadBase64",
        ProofTextError::BadLength => "BadLength",
        ProofTextError::EmptySibling => "EmptySibling",
        ProofTextError::OutOfMemory => "OutOfMemory",
    }
}

fn fault_text(alloc: Global, number: u32, proof: &[u8]) -> Result<Vec<u8>, CallError>
    ensures ok { IfOk result (λ v. FaultTells number proof.now v.items) }
    ensures err { IfErr result (ErrorsAs (IsOk (tree_numbered number)) (FaultLacks number proof.now)
        (IsNoTree number)) }
{
    let tree = Tree::numbered(number)?;
    let fault = fault_in(alloc, tree, proof)?;
    let name = fault_name(fault);
    Ok(Vec::from_slice(alloc, name.as_bytes())?)
}

/// The name of what is wrong with the text of a proof on one of `enum warg_tree`, so that a caller can say it: TooLong, BadBase64, BadLength
/// or EmptySibling.
///   WARG_NONE: nothing is wrong: it is the text of a proof, whatever that shows.
///   WARG_BAD_ARGUMENT (NoTree): no such tree.
#[unsafe(no_mangle)]
pub extern "C" fn warg_proof_fault(
    alloc: Global,
    tree: u32,
    proof: &[u8],
    text: &mut [u8],
    used: &mut usize,
) -> u32
    ensures statuses { IsOneOf (WARG_OK ∷ WARG_OUT_OF_MEMORY ∷ WARG_TOO_SMALL ∷ WARG_NONE ∷
        WARG_BAD_ARGUMENT ∷ []) result }
    ensures ok { result ≡ WARG_OK → FaultTells tree proof.now (take used.new text.new) }
    ensures out_of_memory { result ≡ WARG_OUT_OF_MEMORY → IsOk (tree_numbered tree) }
    ensures too_small { result ≡ WARG_TOO_SMALL →
        NeedsRoom (FaultTells tree proof.now) used.new text.old }
    ensures none { result ≡ WARG_NONE → FaultLacks tree proof.now }
    ensures bad_argument { result ≡ WARG_BAD_ARGUMENT →
        IsNoTree tree × IsGiven (argument_error_text NoTree) used.new text.new }
    ensures buffer { Unless (WARG_OK ∷ WARG_BAD_ARGUMENT ∷ []) result (text.new ≡ text.old) }
    ensures used { Unless (WARG_OK ∷ WARG_TOO_SMALL ∷ WARG_BAD_ARGUMENT ∷ []) result
        (used.new ≡ 0) }
    ensures behind { drop used.new text.new ≡ drop used.new text.old }
    ensures within { result ≢ WARG_TOO_SMALL → used.new ≤ length text.new }
{
    let outcome = fault_text(alloc, tree, proof);
    finish_text(outcome, ArgumentError::NoTree, text, used)
}

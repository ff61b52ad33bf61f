//! Questions beside the bytes that spell them.
ghost use Rattle.std.specs.Prelude.{◌≡◌, ◌⊎◌, IfOk, IfErr, IfSome, IsTrue};
ghost use Rattle.warg_c.specs.declared.call_error.CallError.TheVariants.{BadArgument, OutOfMemory};
ghost use Rattle.warg_c.specs.Questions.{Says, SaysNone};

use crate::call_error::CallError;
use crate::question::{Asked, told};
use std::alloc::Global;
use warg_replay::beside::{Beside, MadeOf};
use warg_replay::external::{SignatureCheck, SignatureVerdict};

/// A question, and how many of the bytes that spell it are which part.
#[derive(Drop)]
pub struct PendingCheck {
    pub(crate) lengths: Asked,
    pub(crate) question: SignatureCheck,
}

impl MadeOf for PendingCheck {
    ghost use Rattle.warg_c.specs.Questions.{Spells};

    ghost made_of = { λ text s. Spells s.lengths text s.question };
}

// Whether the lengths are the same.
fn are_same(left: &Asked, right: &Asked) -> bool
    ensures { IsTrue result → left.now ≡ right.now }
{
    left.key_len == right.key_len
        && left.message_len == right.message_len
        && left.signature_len == right.signature_len
}

// The question that was kept, if these are its bytes and lengths.
fn question_for(kept: Beside<PendingCheck>, bytes: &[u8], lengths: &Asked) -> Option<SignatureCheck>
    ensures { IfSome result (λ q. Says lengths.now bytes.now q) }
{
    let Some(spelled) = kept.value_of(bytes) else {
        return None;
    };
    let PendingCheck {
        lengths: said,
        question,
    } = spelled;
    if !are_same(&said, lengths) {
        return None;
    }
    Some(question)
}

/// The answer to the question that the bytes say. Where they are those of the question that was kept, they are not read
/// again.
pub(crate) fn answer_for(
    alloc: Global,
    kept: Option<Beside<PendingCheck>>,
    bytes: &[u8],
    lengths: &Asked,
    belongs: bool,
) -> Result<SignatureVerdict, CallError>
    ensures ok { IfOk result (λ t. Says lengths.now bytes.now t.question × (t.belongs ≡ belongs)) }
    ensures err { IfErr result (λ f. (f ≡ OutOfMemory) ⊎
        ((f ≡ BadArgument) × SaysNone lengths.now bytes.now)) }
{
    if let Some(kept) = kept {
        if let Some(question) = question_for(kept, bytes, lengths) {
            return Ok(SignatureVerdict { question, belongs });
        }
    }
    told(alloc, bytes, lengths, belongs)
}

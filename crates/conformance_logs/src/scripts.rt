//! The language of the conformance suite's scripts: records, causes and look-ups in few words, the persons who sign, and what
//! each kind of log adds to it.
mod answers;
mod cause;
mod checking;
mod log_error;
mod operator;
mod package;
mod people;
mod script;
mod script_draft;

pub use answers::none;
pub use cause::cause_words;
pub use checking::check;
pub use people::{id, signer};
pub use script::{ScriptLog, envelope_of, input_of, inputs_of, next_input, words_of};
pub use script_draft::ScriptDraft;

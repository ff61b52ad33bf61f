//! The program `weoldrin`: each command as a function of its words and the bytes of its files.
#![tactic(auto)]

mod commands;
mod looks;
mod names;
mod schemes;
mod verified;
mod words;

pub use commands::respond;
pub use looks::coloured;
pub use names::invocation_answer;
pub use schemes::KnownSchemes;
pub use tool_layout::{Look, NameFault, Names, NamesParseError};
pub use tool_words::{
    BeginningFiles, CheckpointQuery, Demands, HeadWords, Invocation, LeafIds, LogQuery, NamedLog,
    NewRecord, Request, Schemes, ShownIds, Signer, Statement, Task, Views, Wanted,
};
pub use warg_audit::LogKind;
pub use warg_audit::files::change::{HoldError, UnwrittenError, WriteError};
pub use warg_audit::files::command_output::CommandOutput;
pub use warg_audit::files::input::{ReadError, Store};
pub use words::{Parsed, parse_words};

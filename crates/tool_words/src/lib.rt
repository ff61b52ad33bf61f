//! The words of the program `weoldrin`: its commands, as its help shows them, and what its words ask for.
#![tactic(auto)]

mod checkpoint;
mod command;
mod comparisons;
mod invocation;
mod log_commands;
mod parts;
mod pleas;
mod proof_commands;
mod request;
mod rules;
mod statement;
mod table;
mod task;
mod version;
mod views;
mod words;

pub use checkpoint::{CheckpointQuery, Schemes};
pub use pleas::{asks_for_json, named_command};
pub use request::{Demands, Invocation, LogQuery, Request, Said};
pub use statement::{LeafIds, NamedLog, Statement, Wanted};
pub use task::{NewRecord, Signer, Task};
pub use views::{BeginningFiles, HeadWords, ShownIds, Views};
pub use words::parse_words;

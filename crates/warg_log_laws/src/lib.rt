//! Laws of every log whose kind is given by rules, as package logs and operator logs are, in the words of their
//! histories: who holds what, the chains of grants, what no key holds any more, entries in turn, and reading by the
//! grammar. A law is called at the state's type, as `holding::<LogState>()`.
#![tactic(auto)]

pub mod audited;
mod kinds;
mod laws;
mod ruled;

pub use laws::{
    chains_of_grants, chains_where_held, effects_are_what_is_held, entries_in_turn,
    extinct_permissions, gifts, gives_what_is_held, holding, is_a_kind, last_entry_decides,
    run_by_grammar,
};
pub use ruled::RuledLog;

//! What a kind of log has to say of itself, the reading of whole logs, and logs that keep their records beside the state
//! that they add up to (`audited_log`): each written once for every kind. `beside` has what need not be read again.
#![tactic(auto)]

pub mod audited_log;
pub mod beside;
pub mod external;
pub mod laws;
mod message;
mod persistent;
mod replay;
mod validator;

pub use message::Named;
pub use persistent::PersistentState;
pub use replay::{RunCause, RunError, run, run_from, run_next};
pub use validator::Validator;
pub use warg_log_records::Effect;

//! What is answered of a registry: the ids of its logs, its leaves, proofs by these, whether a proof shows what is
//! stated, what is signed of a checkpoint, whether it is signed, and what two views of a registry show of one another.
#![tactic(auto)]

mod checkpoint;
mod compare;
mod contradictions;
mod hex_line;
mod leaf;
mod leaves;
mod log_id;
mod prove;
mod read_words;
mod verify;

pub use checkpoint::checkpoint_answer;
pub use compare::compare_answer;
pub use leaf::leaf_answer;
pub use log_id::log_id_answer;
pub use prove::prove_answer;
pub use verify::verify_answer;

//! Callers of the laws of logs from another crate, with no proof file: each law that kinds share is called at every kind,
//! and at package logs cited in the kind's own words too; each law of a kind alone is cited in these.
pub mod any_kind;
pub mod checkpoints;
pub mod operator;
pub mod package;

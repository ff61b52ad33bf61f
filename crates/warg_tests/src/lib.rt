//! What no row of the conformance suite can say: signers and verifiers that fail or count, copies, lists from both ends,
//! programs whose contracts cite the definitions, a kind of log of one's own; and of the program `warg_audit` readers and
//! writers that fail, give little or never end, and inputs of the greatest length.
#![tactic(auto)]

#[cfg(test)]
mod asking;
#[cfg(test)]
mod bodies;
#[cfg(test)]
mod copies;
#[cfg(test)]
mod counter_runs;
#[cfg(test)]
mod counting;
#[cfg(test)]
mod entries_at_fault;
#[cfg(test)]
mod failing_signers;
#[cfg(test)]
mod failures;
#[cfg(test)]
mod keeping;
#[cfg(test)]
mod limits;
pub mod log_laws;
#[cfg(test)]
mod operator_program;
#[cfg(test)]
mod package_program;
#[cfg(test)]
mod releases;
#[cfg(test)]
mod samples;
#[cfg(test)]
mod witnesses;

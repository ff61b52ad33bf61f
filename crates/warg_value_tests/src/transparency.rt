//! Tests of `warg_transparency` for what no row of the conformance suite says: checks under a
//! checkpoint, contradictions, forks, what a map holds, JSON of proofs.
#[cfg(test)]
mod contradictions;
#[cfg(test)]
mod forks;
#[cfg(test)]
mod json;
#[cfg(test)]
mod known;
#[cfg(test)]
mod logs;
#[cfg(test)]
mod maps;
#[cfg(test)]
mod saved;
#[cfg(test)]
mod trees;

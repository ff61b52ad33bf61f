//! Tests of values, messages, records, names and trees by their public paths: what no row of the conformance suite can say.
#![tactic(auto)]

#[cfg(test)]
mod callers;
#[cfg(test)]
mod copies;
#[cfg(test)]
mod crypto;
#[cfg(test)]
mod merkle;
#[cfg(test)]
mod messages;
pub mod paths;
#[cfg(test)]
mod registry;
#[cfg(test)]
mod samples;
#[cfg(test)]
mod transparency;
#[cfg(test)]
mod unsigned;

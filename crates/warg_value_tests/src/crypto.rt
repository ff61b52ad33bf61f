//! Tests of `warg_crypto`, its JSON and its times: copies, fakes that refuse or count, clocks, and the examples of the
//! documentation.
mod clocks;
mod copies;
mod examples;
mod long_texts;
mod members;
mod memory;
mod prefix;
mod signing;
mod values;
mod visits;

//! Operator logs and package logs, each by its rules.
mod operator;
mod package;

//! Small programs on `warg_protocol`, each in a file of its own: `warg_examples NAME WORD..` runs one.
#![tactic(auto)]

mod contract;
mod host;
mod keep_log;
mod own_scheme;
mod resolve;
mod run_errors;
mod transparency;
mod words;

use std::env;

fn main(rt: HostRuntime) -> anyhow::Result<()> {
    let Some(name) = env::args(&rt)?.nth(1) else {
        anyhow::bail!("no example is named");
    };
    match name.as_str() {
        "contract" => contract::main(&rt),
        "host" => host::main(&rt),
        "keep_log" => keep_log::main(&rt),
        "own_scheme" => own_scheme::main(&rt),
        "resolve" => resolve::main(&rt),
        "run_errors" => run_errors::main(&rt),
        "transparency" => transparency::main(&rt),
        _ => anyhow::bail!("there is no such example"),
    }
}

//! The text of a chain, laid out.

ghost use Rattle.std.specs.Prelude.{◌≡◌, ◌++◌, IfOk, OnOk, codes, string_bytes};
ghost use Rattle.tool_layout.specs.Chains.{chain_layout, chain_line};

use crate::line::{push_line, push_spaces};
use crate::look::Look;
use std::alloc::{AllocError, Global};

// Appends the line of a place, laid out and indented.
fn push_chain_line(
    look: &Look,
    place: usize,
    line: &str,
    laid: &mut String,
) -> Result<(), AllocError>
    ensures { OnOk result (string_bytes laid.new ≡ string_bytes laid.old ++
        (chain_line look.now place line.now ++ codes "\n")) }
{
    push_spaces(2 * place.min(20), laid)?;
    push_line(look, line, laid)?;
    laid.push_str("\n")
}

/// The text of a chain, laid out: names in place of the ids of keys, short ids unless whole ones are wanted, and each
/// link indented by two spaces more than the one before it, up to forty.
pub fn chain_layout(alloc: Global, look: &Look, text: &str) -> Result<String, AllocError>
    ensures { IfOk result (λ laid. string_bytes laid ≡ chain_layout look.now text.now) }
{
    let mut laid = String::new(alloc);
    for (place, line) in text.lines().enumerate() {
        push_chain_line(look, place, line, &mut laid)?;
    }
    Ok(laid)
}

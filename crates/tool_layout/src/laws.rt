//! Laws of layouts. They have no effect.

ghost use Rattle.std.specs.Prelude.{◌≡◌, ℕ, List, IfOk, length};
ghost use Rattle.std.specs.List.{AllByRecursion};
ghost use Rattle.std.specs.Str.Lines.{lines};
ghost use Rattle.warg_printable.specs.Lines.{IsPrintedLines};
ghost use Rattle.warg_printable.specs.Printable.{IsPrintable};
ghost use Rattle.tool_layout.specs.Chains.{chain_layout, chain_lines};
ghost use Rattle.tool_layout.specs.KeyNames.{ArePrintable};
ghost use Rattle.tool_layout.specs.Logs.{log_layout, log_lines};
ghost use Rattle.tool_layout.specs.Names.{names_of};
ghost use Rattle.tool_layout.specs.declared.look.Look.{Look};

/// No hidden character stands in a name that was read.
pub fn names_are_printable()
    ensures { (text : List ℕ) → IfOk (names_of text) ArePrintable }
{}

/// Where no hidden character stands in the lines of a log and in names, none stands in the lines of its layout.
pub fn log_is_printable()
    ensures { (look : Look) (text : List ℕ) → ArePrintable look.names →
        AllByRecursion IsPrintable (lines text) →
        IsPrintedLines (log_layout look text) (log_lines look (lines text)) }
{}

/// There is a line for each line of the log.
pub fn log_keeps_lines()
    ensures { (look : Look) (text_lines : List (List ℕ)) →
        length (log_lines look text_lines) ≡ length text_lines }
{}

/// The same of a chain.
pub fn chain_is_printable()
    ensures { (look : Look) (text : List ℕ) → ArePrintable look.names →
        AllByRecursion IsPrintable (lines text) →
        IsPrintedLines (chain_layout look text) (chain_lines look 0 (lines text)) }
{}

/// There is a line for each link of the chain.
pub fn chain_keeps_lines()
    ensures { (look : Look) (place : ℕ) (text_lines : List (List ℕ)) →
        length (chain_lines look place text_lines) ≡ length text_lines }
{}

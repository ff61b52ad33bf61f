//! What the program says of itself.

ghost use Rattle.std.specs.Prelude.{◌≡◌, map, string_bytes};
ghost use Rattle.warg_audit.specs.Commands.{information_named, information_of};

/// What a user asks about the program itself.
#[derive(Clone, Copy, Debug, PartialEq, Eq)]
pub enum Information {
    /// How it is used, `--help`.
    Help,
    /// Its version and the toolchain that proved it, `--version`.
    Version,
}

const HELP: &str = "usage: warg_audit [id] package|operator

Reads signed envelopes from standard input, one a line, each in hex.

  warg_audit package       the verdict on a package's log, and its releases
  warg_audit operator      the verdict on the log of a registry's operators
  warg_audit id package    the id of one package record
  warg_audit id operator   the id of one operator record
  warg_audit --help        this text
  warg_audit --version     the version, and the toolchain that it was proved with

Status: 0 accepted, 1 refused, 2 wrong words or unreadable input, 3 a failed
read or write, or out of memory.
";

// tools/release writes the toolchain's line anew.
const VERSION: &str = "warg_audit 0.1.0
proved with rattle-kit-13f logic dac8208d650f15bf
input: hex on standard input, one envelope a line
";

fn parse_flag(word: &str) -> Option<Information>
    ensures { result ≡ information_named word.now }
{
    match word {
        "--help" => Some(Information::Help),
        "--version" => Some(Information::Version),
        _ => None,
    }
}

/// What the words ask about the program, if they ask about it.
pub fn parse_information(words: &[String]) -> Option<Information>
    ensures { result ≡ information_of (map string_bytes words.now) }
{
    match words {
        [word] => parse_flag(word.as_str()),
        _ => None,
    }
}

impl Information {
    /// What is printed, whole lines.
    pub fn text(self) -> &'static str {
        match self {
            Information::Help => HELP,
            Information::Version => VERSION,
        }
    }
}

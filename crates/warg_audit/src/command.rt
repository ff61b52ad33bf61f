//! What the program is asked for.

ghost use Rattle.std.specs.Prelude.{◌≡◌, map, string_bytes};
ghost use Rattle.warg_audit.specs.Commands.{command_of, log_kind_of};

use crate::log_kind::LogKind;

/// What the program's words ask for.
#[derive(Clone, Copy, Debug, PartialEq, Eq)]
pub enum Command {
    /// The id of one record, `id package` or `id operator`.
    Id(LogKind),
    /// The verdict on a log, `package` or `operator`.
    Audit(LogKind),
}

fn parse_log_kind(word: &str) -> Option<LogKind>
    ensures { result ≡ log_kind_of word.now }
{
    match word {
        "package" => Some(LogKind::Package),
        "operator" => Some(LogKind::Operator),
        _ => None,
    }
}

/// What the words ask for; none for other words.
pub fn parse_command(words: &[String]) -> Option<Command>
    ensures { result ≡ command_of (map string_bytes words.now) }
{
    match words {
        [word] => parse_log_kind(word.as_str()).map(Command::Audit),
        [first, second] => {
            if first.as_str() != "id" {
                return None;
            }
            parse_log_kind(second.as_str()).map(Command::Id)
        }
        _ => None,
    }
}

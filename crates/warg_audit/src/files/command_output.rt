//! What a command answers.

ghost use Rattle.std.specs.Prelude.{◌≡◌, [], IfOk, string_bytes};

use std::alloc::{AllocError, Global};

/// The status of words or inputs that can't be used.
pub const UNUSABLE: u8 = 2;

/// What a command answers: what is written to standard output and to standard error, each in whole lines, and the exit
/// status: 0 yes, 1 a negative answer, 2 wrong words or an unreadable input, 3 trouble.
#[derive(Debug, Drop)]
pub struct CommandOutput {
    /// What is written to standard output.
    pub text: String,
    /// What is written to standard error.
    pub error_text: String,
    /// The exit status.
    pub status: u8,
}

impl CommandOutput {
    ghost use Rattle.warg_audit.specs.Files.Answers.{output_data};

    /// An answer that says nothing on standard error.
    pub fn new(alloc: Global, text: String, status: u8) -> CommandOutput
        ensures { output_data result ≡ record { text = string_bytes text; status = status } }
    {
        CommandOutput {
            text,
            error_text: String::new(alloc),
            status,
        }
    }

    /// A fixed text that says nothing on standard error.
    pub fn fixed(alloc: Global, text: &str, status: u8) -> Result<CommandOutput, AllocError>
        ensures { IfOk result (λ answer. output_data answer ≡
            record { text = text.now; status = status }) }
    {
        Ok(CommandOutput::new(alloc, String::from_str(alloc, text)?, status))
    }

    /// An answer that says nothing on standard output.
    pub fn fault(alloc: Global, error_text: String, status: u8) -> CommandOutput
        ensures printed { output_data result ≡ record { text = []; status = status } }
        ensures told { result.error_text ≡ error_text }
    {
        CommandOutput {
            text: String::new(alloc),
            error_text,
            status,
        }
    }

    /// The same answer, with this sentence on standard error.
    pub fn with_sentence(self, sentence: String) -> CommandOutput
        ensures { output_data result ≡ output_data self }
    {
        CommandOutput {
            text: self.text,
            error_text: sentence,
            status: self.status,
        }
    }
}

//! What the program prints, and its exit status.

ghost use Rattle.std.specs.Prelude.{◌≡◌, IfOk};

use std::alloc::{AllocError, Global};

/// A text in memory of its own, or one that takes none.
#[derive(Debug, Drop)]
enum Text {
    Owned(String),
    Fixed(&'static str),
}

/// What is printed, whole, and the exit status.
#[derive(Debug, Drop)]
pub struct Reply {
    text: Text,
    status: u8,
}

impl Reply {
    ghost use Rattle.warg_audit.specs.Replies.{printed_of, text_of};
    ghost use Rattle.std.specs.Prelude.{string_bytes};

    /// A reply with a text in memory of its own.
    pub fn owned(text: String, status: u8) -> Reply
        ensures { printed_of result ≡ record { text = string_bytes text; status = status } }
    {
        Reply {
            text: Text::Owned(text),
            status,
        }
    }

    /// A reply that takes no memory.
    pub fn fixed(text: &'static str, status: u8) -> Reply
        ensures { printed_of result ≡ record { text = text.entry.now; status = status } }
    {
        Reply {
            text: Text::Fixed(text),
            status,
        }
    }

    /// The text, with the line feed at its end.
    pub fn text(&self) -> &str
        ensures { result.now ≡ (printed_of self.now).text }
    {
        match &self.text {
            Text::Owned(text) => text.as_str(),
            Text::Fixed(text) => *text,
        }
    }

    /// The exit status: 0 for an answer, 1 for a log that is refused, 2 for words or an input that are none, 3
    /// for trouble.
    pub fn status(&self) -> u8
        ensures { result ≡ (printed_of self.now).status }
    {
        self.status
    }
}

ghost use Rattle.warg_audit.specs.Printouts.{bad_line, refused_line};
ghost use Rattle.warg_audit.specs.Replies.{printed_of};

/// The reply to a line that spells no bytes, or to one too few or too many.
pub fn bad_line_reply(alloc: Global, index: usize) -> Result<Reply, AllocError>
    ensures { IfOk result (λ reply. printed_of reply ≡ bad_line index) }
{
    Ok(Reply::owned(format!(in alloc; "bad line {index}\n")?, 2))
}

/// The reply to a refused input.
pub fn refused_reply(alloc: Global, index: usize, name: &str) -> Result<Reply, AllocError>
    ensures { IfOk result (λ reply. printed_of reply ≡ refused_line index name.now) }
{
    let text = format!(in alloc; "refused {index} {name}\n")?;
    Ok(Reply::owned(text, 1))
}

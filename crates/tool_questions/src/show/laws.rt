//! Laws of what is printed of logs. They have no effect.

ghost use Rattle.std.specs.Prelude.{ℕ, List, Option};
ghost use Rattle.warg_protocol.specs.Logs.{EnvelopeData};
ghost use Rattle.warg_protocol.specs.Records.{RecordId};
ghost use Rattle.tool_answers.specs.ShownWords.{says_operator_words, says_package_words};
ghost use Rattle.tool_answers.specs.ShownWords.{shows_namespaces, shows_releases};
ghost use Rattle.warg_printable.specs.Lines.{IsPrintedText};
ghost use Rattle.tool_questions.specs.Show.ShownLogs.{IsLogText};

/// A package log in words is lines with no control character in them.
pub fn package_lines()
    ensures { (id : List ℕ → RecordId) (head : Option RecordId) (envelopes : List EnvelopeData)
        (text : List ℕ) →
        IsLogText id says_package_words head shows_releases envelopes text → IsPrintedText text }
{}

/// So is an operator log.
pub fn operator_lines()
    ensures { (id : List ℕ → RecordId) (head : Option RecordId) (envelopes : List EnvelopeData)
        (text : List ℕ) → IsLogText id says_operator_words head shows_namespaces envelopes text →
        IsPrintedText text }
{}

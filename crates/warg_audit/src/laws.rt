//! Laws of the definitions, as functions that do nothing.

ghost use Rattle.std.specs.Prelude.{◌≡◌, ℕ, List};
ghost use Rattle.warg_audit.specs.Answers.{IsIdAnswer, id_answer, IsAnswer, answer_of};
ghost use Rattle.warg_audit.specs.LogKinds.{IsLogKindAnswer, log_kind_answer};
ghost use Rattle.warg_audit.specs.declared.log_kind.LogKind.{LogKind};
ghost use Rattle.warg_audit.specs.Printouts.{OutputData};
ghost use Rattle.warg_audit.specs.Files.Lines.{AreLines, lines_of};

use warg_protobuf::laws::decoding_computes;
use warg_replay::laws::first_offence;

/// Each text has lines, and no other ones.
pub fn one_list_of_lines()
    ensures some { (text : List ℕ) → AreLines text (lines_of text) }
    ensures only { (text : List ℕ) (lines : List (List ℕ)) → AreLines text lines →
        lines ≡ lines_of text }
{}

/// Lines of which an id is asked have an answer, and no other one.
pub fn one_id_answer()
    ensures some { (log_kind : LogKind) (lines : List (List ℕ)) → IsIdAnswer log_kind lines
        (id_answer log_kind lines) }
    ensures only { (log_kind : LogKind) (lines : List (List ℕ)) (printed : OutputData) →
        IsIdAnswer log_kind lines printed → printed ≡ id_answer log_kind lines }
{
    decoding_computes();
}

/// The lines of a log have an answer, and no other one.
pub fn one_log_answer()
    ensures some { (log_kind : LogKind) (lines : List (List ℕ)) →
        IsLogKindAnswer log_kind lines (log_kind_answer log_kind lines) }
    ensures only { (log_kind : LogKind) (lines : List (List ℕ)) (printed : OutputData) →
        IsLogKindAnswer log_kind lines printed → printed ≡ log_kind_answer log_kind lines }
{
    first_offence::<warg_package_log::LogState>();
    first_offence::<warg_operator_log::LogState>();
}

/// Words and bytes have an answer, and no other one: a text, printed whole, and a status.
pub fn one_answer()
    ensures some { (words : List (List ℕ)) (bytes : List ℕ) →
        IsAnswer words bytes (answer_of words bytes) }
    ensures only { (words : List (List ℕ)) (bytes : List ℕ) (printed : OutputData) →
        IsAnswer words bytes printed →
        printed ≡ answer_of words bytes }
{
    one_id_answer();
    one_log_answer();
}

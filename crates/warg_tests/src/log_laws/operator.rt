//! Callers of the laws of operator logs: of those that they share with other kinds, and of their own, cited in the
//! kind's own words.
ghost use Rattle.std.specs.Prelude.{◌≡◌, ◌++◌, ◌<◌, ℕ, List, length, All, Some, OnErr};
ghost use Rattle.warg_operator_log.specs.Namespaces.{record_id_of};
ghost use Rattle.warg_operator_log.specs.StateHistory.{OneEntryEach};
ghost use Rattle.warg_protocol.specs.Logs.{EnvelopeData, HasForm, IsAccepted, NoKeyBringsItselfIn, SignatureRelation};
ghost use Rattle.warg_protocol.specs.Operator.{Namespace, history, kind, records_of, view_of};

use crate::log_laws::any_kind;
use std::alloc::AllocError;
use warg_log_laws::audited;
use warg_protocol::laws::operator;
use warg_protocol::operator::{LogState, Permission, ValidationError};
use warg_protocol::signing::{KeyID, Verifier};
use warg_protocol::{AuditedLog, Link, RunCause};

/// The laws that this kind shares with others.
pub fn shared_laws() {
    any_kind::one_holding::<LogState>();
    any_kind::chains_of_grants::<LogState>();
    any_kind::extinct_where_unheld::<LogState>();
    any_kind::entries_give::<LogState>();
    any_kind::entries_in_turn::<LogState>();
    any_kind::run_by_grammar::<LogState>();
    any_kind::audited_logs::<LogState>();
    any_kind::heads_under_one_checkpoint::<LogState>();
    any_kind::runs::<LogState>();
}

/// The calls of an audited log that this kind shares with others.
pub fn shared_calls<V: Verifier + Drop>(
    log: &AuditedLog<LogState, V>,
    key_id: &KeyID,
    permission: Permission,
) -> Result<Option<Vec<Link>>, AllocError> {
    any_kind::formed_records(log);
    any_kind::has_chain(log, key_id, permission);
    any_kind::chain_exactly_where_held(log, key_id, permission)
}

/// An appended record changes no namespace.
pub fn append_keeping_namespaces<V: Verifier + Drop>(
    log: &mut AuditedLog<LogState, V>,
    input: &[u8],
) -> Result<(), RunCause<ValidationError>>
    ensures kept { (name : List ℕ) (s : Namespace) →
        (view_of log.old.state).state.own_state name ≡ Some s →
        (view_of log.new.state).state.own_state name ≡ Some s }
    ensures unchanged { OnErr result (log.new ≡ log.old) }
{
    audited::append(log, input)
}

/// The laws of the kind.
pub fn kind_laws()
    ensures extension { (b : SignatureRelation) (es fs : List EnvelopeData) →
        IsAccepted kind b (es ++ fs) →
        (name : List ℕ) (s : Namespace) → (kind.view_of es).state.own_state name ≡ Some s →
        (kind.view_of (es ++ fs)).state.own_state name ≡ Some s }
    ensures names { (b : SignatureRelation) (es : List EnvelopeData) → IsAccepted kind b es →
        OneEntryEach (history es) }
    ensures form { (b : SignatureRelation) (es : List EnvelopeData) → 0 < length es →
        IsAccepted kind b es → HasForm record_id_of (records_of es) }
    ensures admitted { (b : SignatureRelation) (es : List EnvelopeData) → IsAccepted kind b es →
        All (λ r. r.contents.version ≡ 1) (records_of es) → NoKeyBringsItselfIn (records_of es) }
{
    operator::extension();
    operator::one_entry_each();
    operator::form();
    operator::no_key_brings_itself_in();
    operator::states_tell_history();
    operator::offences_are_possible();
    operator::errors_tell_apart();
    operator::equality();
    operator::newest_version();
}

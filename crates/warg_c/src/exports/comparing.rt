//! Two logs.
ghost use Rattle.std.specs.Prelude.{◌≡◌, ◌≢◌, ◌⊎◌, ◌↔◌, [], ◌∷◌, None, Some, IfOk, IfErr, IsSomeAnd};
ghost use Rattle.warg_c.specs.ComparisonAnswers.{AreBoth, ComparisonIs, compare_tells, compare_bad, shown_of};
ghost use Rattle.warg_c.specs.Logs.{whole_of};
ghost use Rattle.warg_c.specs.Statuses.{WARG_OK, WARG_NOT_OPEN, WARG_BAD_ARGUMENT, IsOneOf};
ghost use Rattle.warg_c.specs.Texts.{ErrorsAs};

use crate::any_log::AnyLog;
use crate::call_error::{CallError, status};
use crate::given::finish_value;
use crate::handle::WargLog;
use crate::log_or_state::LogOrState;
use std::alloc::Global;
use warg_replay::Validator;
use warg_replay::audited_log::Comparison as LogComparison;

/// How two logs compare, and where.
#[repr(C)]
#[derive(Clone, Copy)]
pub struct Comparison {
    /// One of `enum warg_comparison_case`.
    pub is: u32,
    pub left: usize,
    pub right: usize,
}

// How two logs compare, by the contents of their records.
fn shown(comparison: LogComparison) -> Comparison
    ensures { result ≡ shown_of comparison }
{
    let (is, left, right) = match comparison {
        // The contents are equal, record for record.
        LogComparison::Same => (0, 0, 0),
        // The right log begins with all of the left one, and goes on at `left`, which is `right`.
        LogComparison::LeftIsPrefix { at } => (1, at, at),
        // The left log begins with all of the right one, and goes on at `left`, which is `right`.
        LogComparison::RightIsPrefix { at } => (2, at, at),
        // The logs fork: `left`, which is `right`, is the first place where both have a record and the contents differ.
        LogComparison::Fork { at } => (3, at, at),
        // The heads are one and the contents are not: the record at the place `left` of the left log and that at `right` of the right one
        // differ, and have one id.
        LogComparison::Collision { left, right } => (4, left, right),
    };
    Comparison { is, left, right }
}

fn compare_logs<L: Validator>(
    left: &LogOrState<L>,
    right: &LogOrState<L>,
) -> Result<Comparison, CallError>
    ensures ok { IfOk result (ComparisonIs L.kind L.view (whole_of left.now) (whole_of right.now)) }
    ensures err { IfErr result (ErrorsAs ⊥ ⊥ ((whole_of left.now ≡ None) ⊎
        (whole_of right.now ≡ None))) }
{
    let Some(left) = left.whole() else {
        return Err(CallError::BadArgument);
    };
    let Some(right) = right.whole() else {
        return Err(CallError::BadArgument);
    };
    Ok(shown(left.compare(right)))
}

fn compare_held(left: &AnyLog, right: &AnyLog) -> Result<Comparison, CallError>
    ensures ok { IfOk result (compare_tells left.now right.now) }
    ensures err { IfErr result (ErrorsAs ⊥ ⊥ (compare_bad left.now right.now)) }
{
    match (left, right) {
        (AnyLog::Package(left), AnyLog::Package(right)) => compare_logs(left, right),
        (AnyLog::Operator(left), AnyLog::Operator(right)) => compare_logs(left, right),
        _ => Err(CallError::BadArgument),
    }
}

// Compares a log that is open with a handle's.
fn compare_with(
    alloc: Global,
    left: &AnyLog,
    right: &mut WargLog,
    comparison: &mut Comparison,
) -> u32
    ensures statuses { IsOneOf (WARG_OK ∷ WARG_NOT_OPEN ∷ WARG_BAD_ARGUMENT ∷ []) result }
    ensures not_open { (result ≡ WARG_NOT_OPEN) ↔ (right.old.owned.kept ≡ None) }
    ensures ok { result ≡ WARG_OK → IsSomeAnd right.old.owned.kept (λ held.
        compare_tells left.now held comparison.new) }
    ensures bad_argument { result ≡ WARG_BAD_ARGUMENT → IsSomeAnd right.old.owned.kept (λ held.
        compare_bad left.now held) }
    ensures kept { result ≢ WARG_OK → comparison.new ≡ comparison.old }
    ensures unchanged { right.new.owned.kept ≡ right.old.owned.kept }
{
    let Some(held) = right.take(alloc) else {
        return status(Err(CallError::NotOpen));
    };
    let outcome = compare_held(left, &held);
    right.put(held);
    finish_value(outcome, comparison)
}

/// Compares the records of two logs. They are two: one log may not be passed twice.
///   WARG_BAD_ARGUMENT: one is of a package and one of operators, or one was resumed.
#[unsafe(no_mangle)]
pub extern "C" fn warg_compare(
    alloc: Global,
    left: &mut WargLog,
    right: &mut WargLog,
    comparison: &mut Comparison,
) -> u32
    ensures statuses { IsOneOf (WARG_OK ∷ WARG_NOT_OPEN ∷ WARG_BAD_ARGUMENT ∷ []) result }
    ensures not_open { (result ≡ WARG_NOT_OPEN) ↔
        ((left.old.owned.kept ≡ None) ⊎ (right.old.owned.kept ≡ None)) }
    ensures ok { result ≡ WARG_OK → AreBoth left.old.owned.kept right.old.owned.kept (λ l r.
        compare_tells l r comparison.new) }
    ensures bad_argument { result ≡ WARG_BAD_ARGUMENT →
        AreBoth left.old.owned.kept right.old.owned.kept compare_bad }
    ensures kept { result ≢ WARG_OK → comparison.new ≡ comparison.old }
    ensures unchanged { (left.new.owned.kept ≡ left.old.owned.kept) ×
        (right.new.owned.kept ≡ right.old.owned.kept) }
{
    let Some(held) = left.take(alloc) else {
        return status(Err(CallError::NotOpen));
    };
    let answer = compare_with(alloc, &held, right, comparison);
    left.put(held);
    answer
}

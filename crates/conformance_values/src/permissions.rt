//! Permissions of both kinds of log, and their numbers in messages.

use crate::from_words::{FromWords, no_such_kind, value_of};
use conformance_rows::{Answer, RowError, Words};
use std::alloc::Global;
use std::fmt::Display;
use warg_log_records::{operator, package};
use warg_permissions::{LogPermission, PermissionParseError};

/// `permissions KIND`: all permissions of the kind, in order.
pub(crate) fn permissions(alloc: Global, mut words: Words<'_>) -> Result<Answer, RowError> {
    let kind = words.next(alloc)?;
    words.end()?;
    match kind.as_str() {
        "package-permission" => all::<package::Permission>(alloc),
        "operator-permission" => all::<operator::Permission>(alloc),
        _ => no_such_kind(),
    }
}

fn all<P: LogPermission>(alloc: Global) -> Result<Answer, RowError> {
    let mut text = String::new(alloc);
    for permission in P::all(alloc)?.iter() {
        if !text.is_empty() {
            text.push(' ')?;
        }
        text.push_str(permission.as_text())?;
    }
    Answer::value(alloc, &text)
}

/// `permission-number KIND TEXT`: the number that names the permission in messages.
pub(crate) fn permission_number(alloc: Global, mut words: Words<'_>) -> Result<Answer, RowError> {
    let kind = words.next(alloc)?;
    match kind.as_str() {
        "package-permission" => {
            let permission = value_of::<package::Permission>(alloc, words)?;
            number(alloc, permission, i32::from(&permission))
        }
        "operator-permission" => {
            let permission = value_of::<operator::Permission>(alloc, words)?;
            number(alloc, permission, i32::from(&permission))
        }
        _ => no_such_kind(),
    }
}

// The number, which every way has to give.
fn number<P: LogPermission>(alloc: Global, permission: P, number: i32) -> Result<Answer, RowError> {
    let text = permission.as_text();
    if permission.to_number() != number || P::from_text(text) != Some(permission) {
        return Err(RowError::new("the permission has another number or text"));
    }
    Answer::value(alloc, &number)
}

/// `permission-of-number KIND NUMBER`: the permission that the number names in messages.
pub(crate) fn permission_of_number(
    alloc: Global,
    mut words: Words<'_>,
) -> Result<Answer, RowError> {
    let kind = words.next(alloc)?;
    let number = words.next(alloc)?.as_str().parse::<i32>()?;
    words.end()?;
    match kind.as_str() {
        "package-permission" => { named(alloc, number, package::Permission::try_from(number)) }
        "operator-permission" => { named(alloc, number, operator::Permission::try_from(number)) }
        _ => no_such_kind(),
    }
}

// The permission, which every way has to find.
fn named<P: LogPermission + FromWords>(
    alloc: Global,
    number: i32,
    outcome: Result<P, PermissionParseError>,
) -> Result<Answer, RowError> {
    if outcome.ok() != P::from_number(number) {
        return Err(RowError::new("the number names another permission"));
    }
    match outcome {
        Ok(permission) => Answer::value(alloc, &permission.to_words(alloc)?),
        Err(PermissionParseError { value }) => {
            Answer::fault(alloc, &format_args!("PermissionParseError {value}"))
        }
    }
}

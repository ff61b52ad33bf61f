//! What is reported of operator logs.

ghost use Rattle.std.specs.Prelude.{[]};

use crate::report::Report;
use std::alloc::{AllocError, Global};
use warg_operator_log::{LogState, ValidationError};

impl Report for LogState {
    ghost use Rattle.std.specs.Option.{option_map};
    ghost use Rattle.warg_operator_log.specs.State.{offence_of};
    ghost use Rattle.warg_operator_log.specs.OffenceNames.{offence_name};

    ghost name_of = { λ e. option_map offence_name (offence_of e) };

    ghost lines_of = { λ _. [] };

    ghost report = { record {} };

    fn error_name(error: &ValidationError) -> Option<&'static str> {
        match error {
            ValidationError::OutOfMemory => None,
            _ => Some(error.name()),
        }
    }

    fn append_lines(&self, _alloc: Global, _text: &mut String) -> Result<(), AllocError> {
        Ok(())
    }
}

//! What a handle holds.
ghost use Rattle.std.specs.Prelude.{◌≡◌, Some, None, IfOk, IfErr};
ghost use Rattle.warg_c.specs.AnyLogs.{IsNew, IsOfKind, kind_numbered, package_of, operator_of};
ghost use Rattle.warg_c.specs.ArgumentErrors.{operator_argument_error, package_argument_error};
ghost use Rattle.warg_c.specs.declared.call_error.CallError.TheVariants.{BadArgument};

use crate::argument_error::ArgumentError;
use crate::call_error::CallError;
use crate::log_or_state::LogOrState;
use crate::pending_check::PendingCheck;
use std::alloc::{AllocError, Global};
use warg_operator_log::LogState as OperatorState;
use warg_package_log::LogState as PackageState;
use warg_replay::beside::Beside;

/// The kinds of logs.
#[derive(Clone, Copy, Debug, PartialEq, Eq)]
pub enum LogKind {
    /// The log of a package: its releases.
    Package,
    /// The log of a registry's operators: its namespaces.
    Operator,
}

impl LogKind {
    /// The kind that a number names.
    pub(crate) fn numbered(number: u32) -> Result<LogKind, CallError>
        ensures { result ≡ kind_numbered number }
    {
        match number {
            0 => Ok(LogKind::Package),
            1 => Ok(LogKind::Operator),
            _ => Err(CallError::BadArgument),
        }
    }
}

/// A log of either kind.
#[derive(Drop)]
pub enum AnyLog {
    /// The log of a package.
    Package(LogOrState<PackageState>),
    /// The log of a registry's operators.
    Operator(LogOrState<OperatorState>),
}

impl AnyLog {
    /// A log of no records.
    pub(crate) fn new(alloc: Global, kind: LogKind) -> Result<AnyLog, AllocError>
        ensures { IfOk result (λ held. IsNew held × IsOfKind kind held) }
    {
        Ok(match kind {
            LogKind::Package => AnyLog::Package(LogOrState::new(alloc)?),
            LogKind::Operator => AnyLog::Operator(LogOrState::new(alloc)?),
        })
    }

    /// The log on the heap.
    pub(crate) fn boxed(self, alloc: Global) -> Result<Box<AnyLog>, AllocError>
        ensures { IfOk result (λ b. b.value ≡ self) }
    {
        Ok(Box::new(alloc, self)?)
    }

    /// Hands over the question that was asked last, where it was kept.
    pub(crate) fn take_pending(&mut self) -> Option<Beside<PendingCheck>>
        ensures { self.new ≡ self.old }
    {
        match self {
            AnyLog::Package(log) => log.take_pending(),
            AnyLog::Operator(log) => log.take_pending(),
        }
    }

    /// What is wrong where a call for package logs has a bad argument: this, or the log is of the other kind.
    pub(crate) fn package_argument_error(&self, wrong: ArgumentError) -> ArgumentError
        ensures { result ≡ package_argument_error self.now wrong }
    {
        match self {
            AnyLog::Package(_) => wrong,
            AnyLog::Operator(_) => ArgumentError::WrongKind,
        }
    }

    /// The same of a call for logs of operators.
    pub(crate) fn operator_argument_error(&self, wrong: ArgumentError) -> ArgumentError
        ensures { result ≡ operator_argument_error self.now wrong }
    {
        match self {
            AnyLog::Package(_) => ArgumentError::WrongKind,
            AnyLog::Operator(_) => wrong,
        }
    }

    /// The state of a package log.
    pub(crate) fn package_state(&self) -> Result<&PackageState, CallError>
        ensures ok { IfOk result (λ state. Some state.now ≡ package_of self.now) }
        ensures err { IfErr result (λ f. (f ≡ BadArgument) × (package_of self.now ≡ None)) }
    {
        match self {
            AnyLog::Package(log) => Ok(log.state()),
            AnyLog::Operator(_) => Err(CallError::BadArgument),
        }
    }

    /// The state of an operator log.
    pub(crate) fn operator_state(&self) -> Result<&OperatorState, CallError>
        ensures ok { IfOk result (λ state. Some state.now ≡ operator_of self.now) }
        ensures err { IfErr result (λ f. (f ≡ BadArgument) × (operator_of self.now ≡ None)) }
    {
        match self {
            AnyLog::Package(_) => Err(CallError::BadArgument),
            AnyLog::Operator(log) => Ok(log.state()),
        }
    }
}

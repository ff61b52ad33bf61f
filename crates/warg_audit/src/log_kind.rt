//! The two kinds of log.
/// A type of log.
#[derive(Clone, Copy, Debug, PartialEq, Eq)]
pub enum LogKind {
    /// The log of a package, `package`.
    Package,
    /// The log of an operator, `operator`.
    Operator,
}

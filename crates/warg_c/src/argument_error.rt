//! What is wrong with an argument, or with a log that a call is not for.
ghost use Rattle.std.specs.Prelude.{◌≡◌};
ghost use Rattle.warg_c.specs.ArgumentErrors.{argument_error_text};

/// What is wrong with an argument, or with a log that a call is not for.
#[derive(Clone, Copy, Debug, PartialEq, Eq)]
pub enum ArgumentError {
    /// The number names no kind of log.
    NoKind,
    /// The number names no tree.
    NoTree,
    /// The log is of the other kind.
    WrongKind,
    /// The log was resumed, and its records are elsewhere.
    Resumed,
    /// The text is not UTF-8.
    NotUtf8,
    /// No log of the kind has the name.
    BadName,
    /// The text is no requirement.
    BadRequirement,
    /// The text is no version.
    BadVersion,
    /// The bytes are no question.
    BadQuestion,
}

impl ArgumentError {
    /// Its name, a colon, a space, and a sentence.
    pub(crate) fn text(self) -> &'static str
        ensures { result.now ≡ argument_error_text self }
    {
        match self {
            ArgumentError::NoKind => "NoKind: the number names no kind of log",
            ArgumentError::NoTree => "NoTree: the number names no tree",
            ArgumentError::WrongKind => "WrongKind: the call is for logs of the other kind",
            ArgumentError::Resumed => "Resumed: the log was resumed, and its records are elsewhere",
            ArgumentError::NotUtf8 => "NotUtf8: the text is not UTF-8",
            ArgumentError::BadName => "BadName: no log of the kind has this name",
            ArgumentError::BadRequirement =>
                "BadRequirement: the text is no requirement of versions",
            ArgumentError::BadVersion => "BadVersion: the text is no version",
            ArgumentError::BadQuestion => "BadQuestion: the bytes and lengths are no question",
        }
    }
}

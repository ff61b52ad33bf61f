//! What is asked of a checkpoint of a registry.

/// Of which schemes keys may be whose signatures are taken.
#[derive(Clone, Copy, Debug, PartialEq, Eq)]
pub enum Schemes {
    /// Of any: a file lists the signatures that were verified.
    Any,
    /// Of that which the program verifies, and of the toy scheme, by which anyone can sign.
    WithToy,
    /// Of that which the program verifies.
    Known,
}

/// What is asked of a checkpoint, with the paths of the files.
#[derive(Clone, Copy, Debug, PartialEq, Eq)]
pub enum CheckpointQuery<'a> {
    /// The message that a key of the registry signs.
    Message {
        /// The checkpoint.
        checkpoint: &'a str,
        /// The time, in whole seconds since 1970.
        time: &'a str,
    },
    /// Whether it is signed by a key that the log of the registry's operators lets sign.
    Signature {
        /// The signed checkpoint.
        checkpoint: &'a str,
        /// The operators' log.
        log: &'a str,
        /// The schemes whose signatures are taken.
        schemes: Schemes,
    },
}

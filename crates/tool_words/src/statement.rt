//! What is asked of a registry's logs, and of its log of leaves and its map.

/// The log whose id is wanted.
#[derive(Clone, Copy, Debug, PartialEq, Eq)]
pub enum NamedLog<'a> {
    /// The log of a package.
    Package {
        /// The package's name, as `example:math`.
        name: &'a str,
    },
    /// The log of the registry's operators.
    Operator,
}

/// What a registry is to prove, with the words and the path of the file of its leaves.
#[derive(Clone, Copy, Debug, PartialEq, Eq)]
pub enum Wanted<'a> {
    /// The checkpoint that it stands at, as JSON.
    Checkpoint,
    /// That a leaf stands at a place.
    Inclusion {
        /// The leaf's place, counted from 0.
        place: &'a str,
    },
    /// That its log begins with that of an older checkpoint.
    Consistency {
        /// The older log's length, in leaves.
        length: &'a str,
    },
    /// What its map says of a log.
    Head {
        /// The log's id.
        log_id: &'a str,
    },
}

/// A leaf of a registry's log, by the ids of its log and of its record.
#[derive(Clone, Copy, Debug, PartialEq, Eq)]
pub struct LeafIds<'a> {
    /// The log's id.
    pub log_id: &'a str,
    /// The record's id.
    pub record_id: &'a str,
}

/// What is to be verified, with the paths of the files of checkpoints and proofs.
#[derive(Clone, Copy, Debug, PartialEq, Eq)]
pub enum Statement<'a> {
    /// A leaf stands at a place of the checkpoint's log.
    Inclusion {
        /// The checkpoint.
        checkpoint: &'a str,
        /// The leaf's place, counted from 0.
        place: &'a str,
        /// The leaf.
        leaf: LeafIds<'a>,
        /// The proof.
        proof: &'a str,
    },
    /// The log of one checkpoint begins with that of another.
    Consistency {
        /// The older checkpoint.
        old: &'a str,
        /// The newer one.
        new: &'a str,
        /// The proof.
        proof: &'a str,
    },
    /// A record is the last of a log.
    Head {
        /// The checkpoint.
        checkpoint: &'a str,
        /// The leaf of the record.
        leaf: LeafIds<'a>,
        /// The proof.
        proof: &'a str,
    },
    /// A log has no record.
    Absence {
        /// The checkpoint.
        checkpoint: &'a str,
        /// The log.
        log_id: &'a str,
        /// The proof.
        proof: &'a str,
    },
}

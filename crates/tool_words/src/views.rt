//! What two views of a registry are compared by.

use crate::statement::LeafIds;

/// A leaf that a registry shows, with the paths of the files.
#[derive(Clone, Copy, Debug, PartialEq, Eq)]
pub struct ShownIds<'a> {
    /// The signed checkpoint.
    pub checkpoint: &'a str,
    /// The leaf.
    pub leaf: LeafIds<'a>,
    /// The proof that the leaf stands in the checkpoint's log.
    pub proof: &'a str,
}

/// An answer about the head of a log, with the path of its proof.
#[derive(Clone, Copy, Debug, PartialEq, Eq)]
pub struct HeadWords<'a> {
    /// The id of the log's last record, or `none`, where the answer is that it has none.
    pub record_id: &'a str,
    /// The proof.
    pub proof: &'a str,
}

/// An older checkpoint, with the paths of the files.
#[derive(Clone, Copy, Debug, PartialEq, Eq)]
pub struct BeginningFiles<'a> {
    /// The signed checkpoint.
    pub checkpoint: &'a str,
    /// The proof that the log of a newer one goes on from its own.
    pub proof: &'a str,
}

/// Two views of a registry, with the paths of the files.
#[derive(Clone, Copy, Debug, PartialEq, Eq)]
pub enum Views<'a> {
    /// Two checkpoints.
    Checkpoints {
        /// The older signed checkpoint.
        old: &'a str,
        /// The newer one.
        new: &'a str,
        /// The proof that the log of the newer one goes on from that of the older one.
        proof: &'a str,
    },
    /// The leaves at a place.
    Leaves {
        /// The place, counted from 0.
        place: &'a str,
        /// The leaf under the older checkpoint.
        old: ShownIds<'a>,
        /// The leaf under the newer one.
        new: ShownIds<'a>,
    },
    /// Two answers about the head of one log, under one checkpoint.
    Heads {
        /// The signed checkpoint.
        checkpoint: &'a str,
        /// The log's id.
        log_id: &'a str,
        /// One answer.
        one: HeadWords<'a>,
        /// The other.
        other: HeadWords<'a>,
    },
    /// Two checkpoints whose logs that of a newer one goes on from.
    Beginnings {
        /// One older checkpoint.
        one: BeginningFiles<'a>,
        /// The other.
        other: BeginningFiles<'a>,
        /// The newer signed checkpoint.
        new: &'a str,
    },
}

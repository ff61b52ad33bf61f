//! The commands on a registry's logs, and on its log of leaves and its map.

use crate::log_commands::OF_LOGS;
use crate::table::{Form, JSON, LIMIT, Row, Word};

const LEAVES: Word = Word {
    name: "LEAVES",
    form: Form::Input,
    help: "The file of the registry's leaves: a line each, the ids of a log and of a record",
};

const LOG_ID: Word = Word {
    name: "LOG_ID",
    form: Form::Required,
    help: "The log's id",
};

const RECORD_ID: Word = Word {
    name: "RECORD_ID",
    form: Form::Required,
    help: "The record's id",
};

const CHECKPOINT: Word = Word {
    name: "CHECKPOINT",
    form: Form::Required,
    help: "The file of the checkpoint's JSON",
};

const PROOF: Word = Word {
    name: "PROOF",
    form: Form::Required,
    help: "The file of the proof's text",
};

const PLACE: Word = Word {
    name: "PLACE",
    form: Form::Required,
    help: "The leaf's place, counted from 0",
};

/// Whose id is wanted.
pub(crate) const LOG_ID_OF: &[Row] = &[
    Row {
        name: "package",
        about: "Prints the id of a package's log",
        example: "Example: weoldrin log-id package example:math",
        words: &[Word {
            name: "NAME",
            form: Form::Required,
            help: "The package's name: a namespace, a colon and a name",
        }],
        choices: &[JSON],
    },
    Row {
        name: "operator",
        about: "Prints the id of the operators' log",
        example: "Example: weoldrin log-id operator",
        words: &[],
        choices: &[JSON],
    },
];

/// What is proved.
pub(crate) const PROVE: &[Row] = &[
    Row {
        name: "checkpoint",
        about: "Prints the checkpoint, as JSON",
        example: "Example: weoldrin prove checkpoint leaves.txt > checkpoint.json",
        words: &[LEAVES],
        choices: &[JSON, LIMIT],
    },
    Row {
        name: "inclusion",
        about: "Proves that a leaf stands at a place",
        example: "Example: weoldrin prove inclusion 5 leaves.txt > proof.txt",
        words: &[PLACE, LEAVES],
        choices: &[JSON, LIMIT],
    },
    Row {
        name: "consistency",
        about: "Proves that the log goes on from an older one",
        example: "Example: weoldrin prove consistency 6 leaves.txt > proof.txt",
        words: &[
            Word {
                name: "LENGTH",
                form: Form::Required,
                help: "The older log's length, in leaves",
            },
            LEAVES,
        ],
        choices: &[JSON, LIMIT],
    },
    Row {
        name: "head",
        about: "Proves what the map says of a log",
        example: "Example: weoldrin prove head sha256:0a1b.. leaves.txt > proof.txt",
        words: &[LOG_ID, LEAVES],
        choices: &[JSON, LIMIT],
    },
];

/// The commands that print bytes in hex: those that are signed of a checkpoint, and those that the log hashes of a leaf.
pub(crate) const ENCODINGS: &[Row] = &[
    Row {
        name: "message",
        about: "Prints what a registry's key signs of a checkpoint at a time, in hex",
        example: "Example: weoldrin message checkpoint.json 1700000000

The checkpoint is as `prove checkpoint` prints it. Turn the hex digits into bytes,
and sign these: xxd -r -p message.hex | openssl dgst -sha256 -sign KEY.pem",
        words: &[
            CHECKPOINT,
            Word {
                name: "TIME",
                form: Form::Required,
                help: "The checkpoint's time, in whole seconds since 1970",
            },
        ],
        choices: &[JSON, LIMIT],
    },
    Row {
        name: "leaf",
        about: "Prints the leaf that a record has in the registry's log, in hex",
        example: "Example: weoldrin leaf sha256:0a1b.. sha256:2c3d..",
        words: &[LOG_ID, RECORD_ID],
        choices: &[JSON],
    },
];

/// What is verified.
pub(crate) const VERIFY: &[Row] = &[
    Row {
        name: "checkpoint",
        about: "Whether a checkpoint is signed by a key that the operators' log lets sign",
        example: "Example: weoldrin verify checkpoint signed.json operator.hex

The checkpoint is as a registry answers it, with the members contents, keyId and
signature. The log is audited first.",
        words: &[
            Word {
                name: "CHECKPOINT",
                form: Form::Required,
                help: "The file of the signed checkpoint's JSON",
            },
            Word {
                name: "LOG",
                form: Form::Input,
                help: "The file of the operators' log",
            },
        ],
        choices: OF_LOGS,
    },
    Row {
        name: "inclusion",
        about: "Whether a leaf stands at a place of the log",
        example: "Example: weoldrin verify inclusion checkpoint.json 5 sha256:0a1b.. sha256:2c3d.. proof.txt",
        words: &[CHECKPOINT, PLACE, LOG_ID, RECORD_ID, PROOF],
        choices: &[JSON, LIMIT],
    },
    Row {
        name: "consistency",
        about: "Whether the log of one checkpoint begins with that of another",
        example: "Example: weoldrin verify consistency old.json new.json proof.txt",
        words: &[
            Word {
                name: "OLD",
                form: Form::Required,
                help: "The file of the older checkpoint's JSON",
            },
            Word {
                name: "NEW",
                form: Form::Required,
                help: "The file of the newer checkpoint's JSON",
            },
            PROOF,
        ],
        choices: &[JSON, LIMIT],
    },
    Row {
        name: "head",
        about: "Whether a record is the last of a log",
        example: "Example: weoldrin verify head checkpoint.json sha256:0a1b.. sha256:2c3d.. proof.txt",
        words: &[CHECKPOINT, LOG_ID, RECORD_ID, PROOF],
        choices: &[JSON, LIMIT],
    },
    Row {
        name: "absence",
        about: "Whether a log has no record",
        example: "Example: weoldrin verify absence checkpoint.json sha256:0a1b.. proof.txt",
        words: &[CHECKPOINT, LOG_ID, PROOF],
        choices: &[JSON, LIMIT],
    },
];

const OLD: Word = Word {
    name: "OLD",
    form: Form::Required,
    help: "The file of the older signed checkpoint's JSON",
};

const NEW: Word = Word {
    name: "NEW",
    form: Form::Required,
    help: "The file of the newer signed checkpoint's JSON",
};

/// What is compared of two views of a registry.
pub(crate) const COMPARISONS: &[Row] = &[
    Row {
        name: "checkpoints",
        about: "Says how a checkpoint compares with an older one",
        example: "Example: weoldrin compare checkpoints old.json new.json proof.txt

The checkpoints are as a registry answers them, with the members contents, keyId
and signature. No signature is verified: `verify checkpoint` does that. The proof
is read where the newer log is longer.",
        words: &[
            OLD,
            NEW,
            Word {
                name: "PROOF",
                form: Form::Input,
                help: "The file of the text of the proof of consistency",
            },
        ],
        choices: &[JSON, LIMIT],
    },
    Row {
        name: "leaves",
        about: "Says whether two checkpoints show one leaf at a place",
        example: "Example: weoldrin compare leaves 5 old.json sha256:0a1b.. sha256:2c3d.. old.txt \\
  new.json sha256:0a1b.. sha256:4e5f.. new.txt

The checkpoints are as those of `compare checkpoints`, and the proofs are of
inclusion.",
        words: &[
            PLACE,
            OLD,
            Word {
                name: "OLD_LOG_ID",
                form: Form::Required,
                help: "The id of the log of the leaf under the older checkpoint",
            },
            Word {
                name: "OLD_RECORD_ID",
                form: Form::Required,
                help: "The id of that leaf's record",
            },
            Word {
                name: "OLD_PROOF",
                form: Form::Required,
                help: "The file of the text of that leaf's proof",
            },
            NEW,
            Word {
                name: "NEW_LOG_ID",
                form: Form::Required,
                help: "The id of the log of the leaf under the newer checkpoint",
            },
            Word {
                name: "NEW_RECORD_ID",
                form: Form::Required,
                help: "The id of that leaf's record",
            },
            Word {
                name: "NEW_PROOF",
                form: Form::Required,
                help: "The file of the text of that leaf's proof",
            },
        ],
        choices: &[JSON, LIMIT],
    },
    Row {
        name: "heads",
        about: "Says whether two proofs show one last record of a log",
        example: "Example: weoldrin compare heads signed.json sha256:0a1b.. sha256:2c3d.. one.txt none two.txt

The checkpoint is as those of `compare checkpoints`. In place of a record's id, the
word none says that the proof shows that the log has no record.",
        words: &[
            Word {
                name: "CHECKPOINT",
                form: Form::Required,
                help: "The file of the signed checkpoint's JSON",
            },
            LOG_ID,
            Word {
                name: "RECORD_ID",
                form: Form::Required,
                help: "The id of the log's last record, or none",
            },
            Word {
                name: "PROOF",
                form: Form::Required,
                help: "The file of the text of the proof that shows it",
            },
            Word {
                name: "OTHER_RECORD_ID",
                form: Form::Required,
                help: "The other id of the log's last record, or none",
            },
            Word {
                name: "OTHER_PROOF",
                form: Form::Required,
                help: "The file of the text of the proof that shows that",
            },
        ],
        choices: &[JSON, LIMIT],
    },
    Row {
        name: "beginnings",
        about: "Says how two checkpoints compare from which a newer one goes on",
        example: "Example: weoldrin compare beginnings one.json one.txt two.json two.txt new.json

The checkpoints are as those of `compare checkpoints`, and the proofs are of
consistency.",
        words: &[
            OLD,
            Word {
                name: "OLD_PROOF",
                form: Form::Required,
                help: "The file of the text of the proof that the newer log goes on from that one's",
            },
            Word {
                name: "OTHER",
                form: Form::Required,
                help: "The file of the other older signed checkpoint's JSON",
            },
            Word {
                name: "OTHER_PROOF",
                form: Form::Required,
                help: "The file of the text of the proof that the newer log goes on from that one's",
            },
            NEW,
        ],
        choices: &[JSON, LIMIT],
    },
];

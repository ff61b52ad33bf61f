//! The commands on logs.

use crate::table::{Choice, Form, JSON, LIMIT, Row, Word};

const KIND: Word = Word {
    name: "KIND",
    form: Form::Kind,
    help: "What the log is of",
};

const LOG: Word = Word {
    name: "LOG",
    form: Form::Input,
    help: "The log's file",
};

const BEGUN: Word = Word {
    name: "LOG",
    form: Form::Required,
    help: "The log's file; none yet is a log without records",
};

const STATE: Word = Word {
    name: "STATE",
    form: Form::Required,
    help: "The file of the saved state",
};

const NEWS: Word = Word {
    name: "LOG",
    form: Form::Input,
    help: "The records that came since",
};

const KEY_ID: Word = Word {
    name: "KEY_ID",
    form: Form::Required,
    help: "The key's id, or its beginning, eight digits or more",
};

const VERIFIED: Choice = Choice {
    name: "verified",
    value: Some("FILE"),
    help: "Takes the signatures that this file lists, and no others",
};

const TOY: Choice = Choice {
    name: "toy",
    value: None,
    help: "Also takes signatures of the toy scheme, which anyone can forge",
};

const FULL: Choice = Choice {
    name: "full",
    value: None,
    help: "Shows ids whole",
};

const NAMES: Choice = Choice {
    name: "names",
    value: Some("FILE"),
    help: "Names keys as this file does: an id or a key's text, a space, a name",
};

/// Of commands that audit a log.
pub(crate) const OF_LOGS: &[Choice] = &[JSON, LIMIT, VERIFIED, TOY];

const OF_SHOWN: &[Choice] = &[JSON, LIMIT, VERIFIED, TOY, FULL, NAMES];

const OF_AUDITS: &[Choice] = &[
    JSON,
    LIMIT,
    VERIFIED,
    TOY,
    Choice {
        name: "allow-empty",
        value: None,
        help: "Takes a log without records",
    },
    Choice {
        name: "paths",
        value: None,
        help: "Prints the log's path before each line, as for many logs",
    },
    Choice {
        name: "expect-head",
        value: Some("ID"),
        help: "The id that the last record has to have; with one log alone",
    },
    Choice {
        name: "at-least",
        value: Some("N"),
        help: "How many records there have to be; with one log alone",
    },
    Choice {
        name: "goes-on-from",
        value: Some("FILE"),
        help: "An older copy, which the log has to go on from; with one log alone",
    },
];

const OF_COUNTED: &[Choice] = &[
    JSON,
    LIMIT,
    VERIFIED,
    TOY,
    Choice {
        name: "count",
        value: Some("N"),
        help: "How many records the log had when the state was saved",
    },
];

const OF_MAKING: &[Choice] = &[
    JSON,
    LIMIT,
    VERIFIED,
    TOY,
    Choice {
        name: "key",
        value: Some("toy:NAME"),
        help: "The toy key that signs",
    },
    Choice {
        name: "key-text",
        value: Some("TEXT"),
        help: "The text of the key that signs elsewhere; what it has to sign is printed",
    },
];

/// What is asked of a log, in the order of the help.
pub(crate) const QUESTIONS: &[Row] = &[
    Row {
        name: "id",
        about: "Prints the id of one record",
        example: "Example: weoldrin id package record.hex",
        words: &[
            KIND,
            Word {
                name: "LOG",
                form: Form::Input,
                help: "The file with the record's line",
            },
        ],
        choices: &[JSON, LIMIT],
    },
    Row {
        name: "audit",
        about: "Prints the verdict on a log, or a line on each of many",
        example: "Examples:
  weoldrin audit package log.hex
  weoldrin audit package log.hex --at-least 3 --goes-on-from older.hex
  weoldrin audit package logs/*.hex
  weoldrin audit package @paths.txt   (the file has a path on each line)",
        words: &[
            KIND,
            Word {
                name: "LOG",
                form: Form::Many,
                help: "The logs' files, or @FILE for those that a file lists",
            },
        ],
        choices: OF_AUDITS,
    },
    Row {
        name: "show",
        about: "Shows a log in words, and why a record is refused",
        example: "Example: weoldrin show package log.hex",
        words: &[KIND, LOG],
        choices: OF_SHOWN,
    },
    Row {
        name: "state",
        about: "Prints the state that a log adds up to, as JSON",
        example: "Example: weoldrin state package log.hex > state.json",
        words: &[KIND, LOG],
        choices: OF_LOGS,
    },
    Row {
        name: "resume",
        about: "Prints the state after more records, from a saved one",
        example: "Example: weoldrin resume package state.json news.hex",
        words: &[KIND, STATE, NEWS],
        choices: OF_LOGS,
    },
    Row {
        name: "head",
        about: "Prints the last record's id, time and version, and how many there are",
        example: "Example: weoldrin head package log.hex",
        words: &[KIND, LOG],
        choices: OF_LOGS,
    },
    Row {
        name: "resumed-head",
        about: "Prints the same after more records, from a saved state",
        example: "Example: weoldrin resumed-head package state.json news.hex --count 120",
        words: &[KIND, STATE, NEWS],
        choices: OF_COUNTED,
    },
    Row {
        name: "latest",
        about: "Prints the greatest release of a package that meets a requirement",
        example: "Example: weoldrin latest '^1.2' log.hex",
        words: &[
            Word {
                name: "REQUIREMENT",
                form: Form::Required,
                help: "What the version must meet, as ^1.2 or *",
            },
            LOG,
        ],
        choices: OF_LOGS,
    },
    Row {
        name: "permissions",
        about: "Prints what a key may do",
        example: "Example: weoldrin permissions package sha256:0a1b.. log.hex",
        words: &[KIND, KEY_ID, LOG],
        choices: OF_LOGS,
    },
    Row {
        name: "chain",
        about: "Prints by which entries a key came to hold a permission",
        example: "Example: weoldrin chain package sha256:0a1b.. yank log.hex",
        words: &[
            KIND,
            KEY_ID,
            Word {
                name: "PERMISSION",
                form: Form::Required,
                help: "The permission, as release",
            },
            LOG,
        ],
        choices: OF_SHOWN,
    },
];

/// The comparison of two logs.
pub(crate) const COMPARE: Row = Row {
    name: "compare",
    about: "Says how a log compares with an older copy of it",
    example: "Example: weoldrin compare package older.hex log.hex

One of the two may be -, standard input.",
    words: &[
        KIND,
        Word {
            name: "OLD",
            form: Form::Required,
            help: "The older copy's file",
        },
        Word {
            name: "NEW",
            form: Form::Required,
            help: "The newer copy's file",
        },
    ],
    choices: OF_LOGS,
};

/// What is done with a log.
pub(crate) const TASKS: &[Row] = &[
    Row {
        name: "claims",
        about: "Lists the signatures that have to be verified of a log",
        example: "Example: weoldrin claims package log.hex

Verify each line by what you trust, keep the lines that hold, and hand them back
to any command by --verified FILE. A line is the key's text, the message in hex
and the signature's text, with a space between.",
        words: &[KIND, LOG],
        choices: OF_LOGS,
    },
    Row {
        name: "make",
        about: "Prints a record that comes next in a log",
        example: "Example: weoldrin make package log.hex now 'init alice' --key toy:alice --toy

The time is 'now', one of RFC 3339, or seconds since 1970 as 1700000000.0.

Entries of a package: 'init NAME', 'grant NAME PERMISSION..',
'revoke NAME PERMISSION..', 'release VERSION CONTENT', 'yank VERSION'. Of
operators: 'init NAME', 'grant NAME PERMISSION..', 'revoke NAME PERMISSION..',
'define NAMESPACE', 'import NAMESPACE REGISTRY'. A NAME is that of a toy key, or
a key's text; in 'revoke' it may be a key's id. The toy scheme keeps no secret:
anyone can sign by any name, so it is for trying alone. With --key-text the
record without its signature is printed, and what is to be signed:
weoldrin-sign sign KEY.pem makes the record of it.",
        words: &[
            KIND,
            BEGUN,
            Word {
                name: "TIME",
                form: Form::Required,
                help: "When the record is made",
            },
            Word {
                name: "ENTRY",
                form: Form::Many,
                help: "The record's entries, each in one word of the shell",
            },
        ],
        choices: OF_MAKING,
    },
    Row {
        name: "append",
        about: "Adds records to a log's file, all or none, and prints what they added",
        example: "Example: weoldrin make package log.hex now 'init alice' --key toy:alice --toy | weoldrin append package log.hex --toy

What the audit refuses is not written. A failed write or a kill leaves the old
file or the new one.",
        words: &[
            KIND,
            BEGUN,
            Word {
                name: "LINES",
                form: Form::Input,
                help: "The file with the records' lines",
            },
        ],
        choices: OF_LOGS,
    },
];

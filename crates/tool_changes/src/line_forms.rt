//! The forms of the lines that commands print, by which their objects in JSON have members.

ghost use Rattle.std.specs.Prelude.{◌≡◌, map};
ghost use Rattle.tool_layout.specs.Members.Objects.{row_view};
ghost use Rattle.tool_changes.specs.LineForms.{line_forms, other_forms, tells_records};

use crate::record_forms::record_forms;
use tool_layout::members::{CommandForms, Form, Part};

pub(crate) const REFUSED: Form = Form {
    parts: &[
        Part::Tag("verdict", "refused", "refused"),
        Part::Number("record"),
        Part::Text("offence"),
    ],
};

pub(crate) const BAD_LINE: Form = Form {
    parts: &[
        Part::Tag("verdict", "bad", "bad line"),
        Part::Word("line"),
        Part::Number("line"),
    ],
};

const TOO_LONG: Form = Form {
    parts: &[Part::Tag("verdict", "too", "too long"), Part::Word("long")],
};

pub(crate) const NONE: Form = Form {
    parts: &[Part::Tag("verdict", "none", "none")],
};

const OK_EMPTY: Form = Form {
    parts: &[
        Part::Tag("verdict", "ok", "ok"),
        Part::Number("records"),
        Part::Null("head", "none"),
    ],
};

const OK: Form = Form {
    parts: &[
        Part::Tag("verdict", "ok", "ok"),
        Part::Number("records"),
        Part::Text("head"),
    ],
};

const EMPTY: Form = Form {
    parts: &[Part::Tag("verdict", "empty", "empty")],
};

const BUSY: Form = Form {
    parts: &[Part::Tag("verdict", "busy", "busy")],
};

const NO_HEAD: Form = Form {
    parts: &[
        Part::Tag("verdict", "other", "other head"),
        Part::Word("head"),
        Part::Null("head", "none"),
    ],
};

const OTHER_HEAD: Form = Form {
    parts: &[
        Part::Tag("verdict", "other", "other head"),
        Part::Word("head"),
        Part::Text("head"),
    ],
};

const TOO_SHORT: Form = Form {
    parts: &[
        Part::Tag("verdict", "too", "too short"),
        Part::Word("short"),
        Part::Number("records"),
    ],
};

const RELEASED: Form = Form {
    parts: &[
        Part::Text("release"),
        Part::Tag("state", "released", "released"),
        Part::Text("content"),
    ],
};

const YANKED: Form = Form {
    parts: &[
        Part::Text("release"),
        Part::Tag("state", "yanked", "yanked"),
    ],
};

pub(crate) const ROLLED_BACK: Form = Form {
    parts: &[
        Part::Tag("verdict", "rolled", "rolled back"),
        Part::Word("back"),
        Part::Number("old"),
        Part::Number("new"),
    ],
};

pub(crate) const FORK: Form = Form {
    parts: &[
        Part::Tag("verdict", "fork", "fork"),
        Part::Number("record"),
        Part::Text("old"),
        Part::Text("new"),
    ],
};

pub(crate) const COLLISION: Form = Form {
    parts: &[
        Part::Tag("verdict", "collision", "collision"),
        Part::Number("old"),
        Part::Number("new"),
        Part::Text("id"),
    ],
};

const OF_OLDER: Form = Form {
    parts: &[
        Part::Tag("side", "older:", "older"),
        Part::Tag("verdict", "refused", "refused"),
        Part::Number("record"),
        Part::Text("offence"),
    ],
};

const EMPTY_OLDER: Form = Form {
    parts: &[
        Part::Tag("side", "older:", "older"),
        Part::Tag("verdict", "empty", "empty"),
    ],
};

const MESSAGE: Form = Form {
    parts: &[Part::Rest("message")],
};

const PROOF: Form = Form {
    parts: &[Part::Text("proof")],
};

const NO_JSON: Form = Form {
    parts: &[
        Part::Tag("verdict", "no", "no json"),
        Part::Word("json"),
        Part::Text("fault"),
    ],
};

const BAD_STATE: Form = Form {
    parts: &[
        Part::Tag("verdict", "bad", "bad state"),
        Part::Word("state"),
        Part::Text("fault"),
    ],
};

const STATE: Form = Form {
    parts: &[Part::Json("state")],
};

const HEAD: Form = Form {
    parts: &[
        Part::Text("id"),
        Part::Text("time"),
        Part::Number("version"),
        Part::Number("records"),
    ],
};

const UNCOUNTED_HEAD: Form = Form {
    parts: &[
        Part::Text("id"),
        Part::Text("time"),
        Part::Number("version"),
        Part::Null("records", "unknown"),
    ],
};

static OTHER_FORMS: [CommandForms; 16] = [
    CommandForms {
        command: "id",
        forms: &[
            REFUSED,
            BAD_LINE,
            Form {
                parts: &[Part::Text("id")],
            },
        ],
    },
    CommandForms {
        command: "audit",
        forms: &[
            OK_EMPTY,
            OK,
            EMPTY,
            REFUSED,
            BAD_LINE,
            TOO_LONG,
            NO_HEAD,
            OTHER_HEAD,
            TOO_SHORT,
            ROLLED_BACK,
            FORK,
            COLLISION,
            OF_OLDER,
            EMPTY_OLDER,
            RELEASED,
            YANKED,
            MESSAGE,
        ],
    },
    CommandForms {
        command: "append",
        forms: &[
            OK, OK_EMPTY, EMPTY, BUSY, REFUSED, BAD_LINE, RELEASED, YANKED,
        ],
    },
    CommandForms {
        command: "state",
        forms: &[REFUSED, BAD_LINE, NO_JSON, STATE],
    },
    CommandForms {
        command: "resume",
        forms: &[REFUSED, BAD_LINE, NO_JSON, BAD_STATE, STATE],
    },
    CommandForms {
        command: "head",
        forms: &[REFUSED, BAD_LINE, NONE, HEAD],
    },
    CommandForms {
        command: "resumed-head",
        forms: &[REFUSED, BAD_LINE, NONE, BAD_STATE, HEAD, UNCOUNTED_HEAD],
    },
    CommandForms {
        command: "latest",
        forms: &[
            REFUSED,
            BAD_LINE,
            NONE,
            Form {
                parts: &[Part::Text("release"), Part::Text("content")],
            },
        ],
    },
    CommandForms {
        command: "permissions",
        forms: &[
            REFUSED,
            BAD_LINE,
            Form {
                parts: &[Part::Tag("verdict", "unknown", "unknown")],
            },
            Form {
                parts: &[Part::Text("permission")],
            },
        ],
    },
    CommandForms {
        command: "claims",
        forms: &[
            REFUSED,
            BAD_LINE,
            Form {
                parts: &[
                    Part::Text("key"),
                    Part::Text("message"),
                    Part::Text("signature"),
                ],
            },
        ],
    },
    CommandForms {
        command: "make",
        forms: &[
            REFUSED,
            BAD_LINE,
            Form {
                parts: &[Part::Text("unsigned"), Part::Text("message")],
            },
            Form {
                parts: &[Part::Text("record")],
            },
        ],
    },
    CommandForms {
        command: "log-id",
        forms: &[Form {
            parts: &[Part::Text("id")],
        }],
    },
    CommandForms {
        command: "prove",
        forms: &[
            NONE,
            Form {
                parts: &[Part::Json("checkpoint")],
            },
            PROOF,
        ],
    },
    CommandForms {
        command: "verify",
        forms: &[
            REFUSED,
            BAD_LINE,
            Form {
                parts: &[Part::Tag("verdict", "holds", "holds")],
            },
            Form {
                parts: &[
                    Part::Tag("verdict", "does", "does not hold"),
                    Part::Word("not"),
                    Part::Word("hold"),
                ],
            },
            Form {
                parts: &[
                    Part::Tag("verdict", "may", "may not sign"),
                    Part::Word("not"),
                    Part::Word("sign"),
                ],
            },
            Form {
                parts: &[
                    Part::Tag("verdict", "does", "does not belong"),
                    Part::Word("not"),
                    Part::Word("belong"),
                ],
            },
            Form {
                parts: &[
                    Part::Tag("verdict", "other", "other scheme"),
                    Part::Word("scheme"),
                ],
            },
        ],
    },
    CommandForms {
        command: "message",
        forms: &[Form {
            parts: &[Part::Text("message")],
        }],
    },
    CommandForms {
        command: "leaf",
        forms: &[Form {
            parts: &[Part::Text("leaf")],
        }],
    },
];

// The forms of the lines of commands that tell no records.
#[tactic(auto, unfolding(crate::specs::LineForms::other_forms))]
fn other_forms() -> &'static [CommandForms]
    ensures { map row_view result.now ≡ other_forms }
{
    &OTHER_FORMS
}

// Whether a command tells records, or where they are.
fn tells_records(command: &str) -> bool
    ensures { result ≡ tells_records command.now }
{
    command == "show" || (command == "chain" || command == "compare")
}

/// The forms of a command's lines, in a table, of which the first that fits is taken.
pub(crate) fn line_forms(command: &str) -> &'static [CommandForms]
    ensures { map row_view result.now ≡ line_forms command.now }
{
    if tells_records(command) {
        record_forms()
    } else {
        other_forms()
    }
}

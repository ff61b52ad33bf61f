//! The forms of the lines of commands that tell records, or where they are.

ghost use Rattle.std.specs.Prelude.{◌≡◌, map};
ghost use Rattle.tool_layout.specs.Members.Objects.{row_view};
ghost use Rattle.tool_changes.specs.LineForms.{record_forms};

use crate::line_forms::{BAD_LINE, COLLISION, FORK, NONE, REFUSED, ROLLED_BACK};
use tool_layout::members::{CommandForms, Form, Part};

const SAME_EMPTY: Form = Form {
    parts: &[
        Part::Tag("verdict", "same", "same"),
        Part::Number("records"),
        Part::Null("head", "none"),
    ],
};

const SAME: Form = Form {
    parts: &[
        Part::Tag("verdict", "same", "same"),
        Part::Number("records"),
        Part::Text("head"),
    ],
};

const GOES_ON: Form = Form {
    parts: &[
        Part::Tag("verdict", "goes", "goes on"),
        Part::Word("on"),
        Part::Number("old"),
        Part::Number("new"),
    ],
};

const SAME_LENGTH: Form = Form {
    parts: &[Part::Tag("verdict", "same", "same"), Part::Number("length")],
};

const FORK_LENGTH: Form = Form {
    parts: &[Part::Tag("verdict", "fork", "fork"), Part::Number("length")],
};

const NOT_SHOWN_LENGTHS: Form = Form {
    parts: &[
        Part::Tag("verdict", "not", "not shown"),
        Part::Word("shown"),
        Part::Number("old"),
        Part::Number("new"),
    ],
};

const SAME_LEAF: Form = Form {
    parts: &[Part::Tag("verdict", "same", "same")],
};

const FORK_LEAF: Form = Form {
    parts: &[Part::Tag("verdict", "fork", "fork")],
};

const NO_LEAF: Form = Form {
    parts: &[
        Part::Tag("verdict", "not", "not shown"),
        Part::Word("shown"),
    ],
};

const TWO_HEADS: Form = Form {
    parts: &[Part::Tag("verdict", "two", "two")],
};

const ONE_AND_NONE: Form = Form {
    parts: &[
        Part::Tag("verdict", "one", "one and none"),
        Part::Word("and"),
        Part::Word("none"),
    ],
};

const TWO_LOGS: Form = Form {
    parts: &[Part::Tag("verdict", "collision", "collision")],
};

const TWO_LENGTHS: Form = Form {
    parts: &[
        Part::Tag("verdict", "two", "two lengths"),
        Part::Word("lengths"),
    ],
};

const OF_OLD: Form = Form {
    parts: &[
        Part::Tag("side", "old:", "old"),
        Part::Tag("verdict", "refused", "refused"),
        Part::Number("record"),
        Part::Text("offence"),
    ],
};

const OF_NEW: Form = Form {
    parts: &[
        Part::Tag("side", "new:", "new"),
        Part::Tag("verdict", "refused", "refused"),
        Part::Number("record"),
        Part::Text("offence"),
    ],
};

const OLD_RECORD: Form = Form {
    parts: &[
        Part::Tag("side", "old", "old"),
        Part::Text("time"),
        Part::Text("signer"),
        Part::Rest("entries"),
    ],
};

const BARE_OLD_RECORD: Form = Form {
    parts: &[
        Part::Tag("side", "old", "old"),
        Part::Text("time"),
        Part::Text("signer"),
    ],
};

const NEW_RECORD: Form = Form {
    parts: &[
        Part::Tag("side", "new", "new"),
        Part::Text("time"),
        Part::Text("signer"),
        Part::Rest("entries"),
    ],
};

const BARE_NEW_RECORD: Form = Form {
    parts: &[
        Part::Tag("side", "new", "new"),
        Part::Text("time"),
        Part::Text("signer"),
    ],
};

static RECORD_FORMS: [CommandForms; 3] = [
    CommandForms {
        command: "show",
        forms: &[
            REFUSED,
            BAD_LINE,
            Form {
                parts: &[
                    Part::Tag("shows", "head", "head"),
                    Part::Null("head", "none"),
                ],
            },
            Form {
                parts: &[Part::Tag("shows", "head", "head"), Part::Text("head")],
            },
            Form {
                parts: &[
                    Part::Tag("shows", "key", "key"),
                    Part::Text("id"),
                    Part::Text("key"),
                    Part::Words("permissions"),
                ],
            },
            Form {
                parts: &[
                    Part::Tag("shows", "release", "release"),
                    Part::Text("release"),
                    Part::Tag("state", "yanked", "yanked"),
                    Part::Word("by"),
                    Part::Text("by"),
                    Part::Word("at"),
                    Part::Text("time"),
                ],
            },
            Form {
                parts: &[
                    Part::Tag("shows", "release", "release"),
                    Part::Text("release"),
                    Part::Text("content"),
                ],
            },
            Form {
                parts: &[
                    Part::Tag("shows", "namespace", "namespace"),
                    Part::Text("namespace"),
                    Part::Tag("state", "defined", "defined"),
                ],
            },
            Form {
                parts: &[
                    Part::Tag("shows", "namespace", "namespace"),
                    Part::Text("namespace"),
                    Part::Tag("state", "imported", "imported"),
                    Part::Word("from"),
                    Part::Text("registry"),
                ],
            },
            Form {
                parts: &[Part::Tag("shows", "why:", "why"), Part::Rest("why")],
            },
            Form {
                parts: &[Part::Tag("shows", "entry:", "entry"), Part::Number("entry")],
            },
            Form {
                parts: &[Part::Tag("shows", "try:", "try"), Part::Rest("try")],
            },
            Form {
                parts: &[
                    Part::Number("record"),
                    Part::Text("id"),
                    Part::Text("time"),
                    Part::Text("signer"),
                    Part::Rest("entries"),
                ],
            },
            Form {
                parts: &[
                    Part::Number("record"),
                    Part::Text("id"),
                    Part::Text("time"),
                    Part::Text("signer"),
                ],
            },
        ],
    },
    CommandForms {
        command: "chain",
        forms: &[
            REFUSED,
            BAD_LINE,
            NONE,
            Form {
                parts: &[
                    Part::Number("record"),
                    Part::Number("entry"),
                    Part::Text("time"),
                    Part::Text("signer"),
                    Part::Word("to"),
                    Part::Text("key"),
                ],
            },
        ],
    },
    CommandForms {
        command: "compare",
        forms: &[
            SAME_EMPTY,
            SAME,
            GOES_ON,
            ROLLED_BACK,
            FORK,
            OLD_RECORD,
            BARE_OLD_RECORD,
            NEW_RECORD,
            BARE_NEW_RECORD,
            COLLISION,
            OF_OLD,
            OF_NEW,
            SAME_LENGTH,
            FORK_LENGTH,
            NOT_SHOWN_LENGTHS,
            SAME_LEAF,
            FORK_LEAF,
            NO_LEAF,
            TWO_HEADS,
            ONE_AND_NONE,
            TWO_LOGS,
            TWO_LENGTHS,
        ],
    },
];

/// The forms of these commands' lines.
#[tactic(auto, unfolding(crate::specs::LineForms::record_forms))]
pub(crate) fn record_forms() -> &'static [CommandForms]
    ensures { map row_view result.now ≡ record_forms }
{
    &RECORD_FORMS
}

//! What is to be compared of what a registry showed.

ghost use Rattle.std.specs.Prelude.{◌<◌};
ghost use Rattle.tool_words.specs.PartsViews.{parts_view};
ghost use Rattle.tool_words.specs.Requests.{AreBeginningFiles, AreHeadWords, AreShownIds, AreViews};
ghost use Rattle.tool_words.specs.declared.command.Command.TheVariants as command;
ghost use Rattle.tool_words.specs.declared.command.Comparing.TheVariants as comparing;

use crate::command::Comparing;
use crate::parts::Parts;
use crate::views::{BeginningFiles, HeadWords, ShownIds, Views};

impl<'a> Parts<'a> {
    // A leaf that a registry shows, by the words from a place on.
    fn shown(&self, i: usize) -> ShownIds<'a>
        requires { i < 8 }
        ensures { AreShownIds i (parts_view self.now).places result }
    {
        ShownIds {
            checkpoint: self.place(i),
            leaf: self.leaf(i + 1, i + 2),
            proof: self.place(i + 3),
        }
    }

    // An answer about a log's head, by the words from a place on.
    fn head_words(&self, i: usize) -> HeadWords<'a>
        requires { i < 8 }
        ensures { AreHeadWords i (parts_view self.now).places result }
    {
        HeadWords {
            record_id: self.place(i),
            proof: self.place(i + 1),
        }
    }

    // Two answers about the head of one log.
    fn heads(&self) -> Views<'a>
        ensures { AreViews (command.Compare comparing.Heads) (parts_view self.now).places
            (parts_view self.now).given result }
    {
        Views::Heads {
            checkpoint: self.place(0),
            log_id: self.place(1),
            one: self.head_words(2),
            other: self.head_words(4),
        }
    }

    // An older checkpoint, by the words from a place on.
    fn beginning_files(&self, i: usize) -> BeginningFiles<'a>
        requires { i < 8 }
        ensures { AreBeginningFiles i (parts_view self.now).places result }
    {
        let (checkpoint, proof) = (self.place(i), self.place(i + 1));
        BeginningFiles { checkpoint, proof }
    }

    // Two checkpoints whose logs that of a newer one goes on from.
    fn beginnings(&self) -> Views<'a>
        ensures { AreViews (command.Compare comparing.Beginnings) (parts_view self.now).places
            (parts_view self.now).given result }
    {
        Views::Beginnings {
            one: self.beginning_files(0),
            other: self.beginning_files(2),
            new: self.place(4),
        }
    }

    /// What is to be compared.
    pub(crate) fn views(&self, comparing: Comparing) -> Views<'a>
        ensures { AreViews (command.Compare comparing) (parts_view self.now).places
            (parts_view self.now).given result }
    {
        match comparing {
            Comparing::Checkpoints => {
                let (old, new, proof) = (self.place(0), self.place(1), self.place(2));
                Views::Checkpoints { old, new, proof }
            }
            Comparing::Leaves => Views::Leaves {
                place: self.place(0),
                old: self.shown(1),
                new: self.shown(5),
            },
            Comparing::Heads => self.heads(),
            Comparing::Beginnings => self.beginnings(),
        }
    }
}

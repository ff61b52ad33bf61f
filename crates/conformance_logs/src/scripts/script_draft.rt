//! A record in few words.
//!
//! `alice 1.5 v7: init alice, grant bob release` is signed by alice, at one second and five nanoseconds, of
//! version 7 of the protocol, and has two entries. Where nothing is said the version is 0, and the record
//! names the one before it; an `unlinked` record names none, and a `mislinked` one another. A `next` record is the
//! one that the state itself makes: after its head, and of the newest version.
use crate::scripts::script::words_of;
use conformance_rows::RowError;
use warg_protocol::Timestamp;
use warg_protocol::hash::HashAlgorithm;
use warg_protocol::registry::RecordId;

#[derive(Clone, Copy)]
enum Link {
    Right,
    Missing,
    Wrong,
}

/// A record to be made. Its entries are still text, which each kind of log reads for itself.
#[derive(Clone, Copy)]
pub struct ScriptDraft<'a> {
    pub signer: &'a str,
    time: &'a str,
    pub version: u32,
    pub entries: &'a str,
    link: Link,
    pub is_next: bool,
}

impl<'a> ScriptDraft<'a> {
    /// The draft that a line says; none where the line has no colon.
    pub fn parse(line: &'a str) -> Result<Option<ScriptDraft<'a>>, RowError> {
        let Some((head, entries)) = line.split_once(':') else {
            return Ok(None);
        };
        let (signer, time, turns) = words_of(head);
        let mut draft = ScriptDraft {
            signer,
            time,
            version: 0,
            entries,
            link: Link::Right,
            is_next: false,
        };
        draft.turn_all(turns)?;
        Ok(Some(draft))
    }

    fn turn_all(&mut self, words: &str) -> Result<(), RowError> {
        for word in words.split_whitespace() {
            self.turn(word)?;
        }
        Ok(())
    }

    fn turn(&mut self, word: &str) -> Result<(), RowError> {
        match word {
            "unlinked" => self.link = Link::Missing,
            "mislinked" => self.link = Link::Wrong,
            "next" => self.is_next = true,
            _ => {
                let number = word
                    .strip_prefix("v")
                    .ok_or("a strange word before the colon")?;
                self.version = number.parse::<u32>()?;
            }
        }
        Ok(())
    }

    /// When the record is made.
    pub fn timestamp(&self) -> Result<Timestamp, RowError> {
        Ok(Timestamp::parse_text(self.time)?)
    }

    /// What the record names as the one before it, where `last` is the log's last one.
    pub fn prev(&self, last: Option<RecordId>) -> Option<RecordId> {
        match self.link {
            Link::Right => last,
            Link::Missing => None,
            Link::Wrong => Some(RecordId::from(HashAlgorithm::Sha256.digest(b"another record"))),
        }
    }
}

//! Entries that begin a log.

ghost use Rattle.std.specs.Prelude.{◌≡◌, IfOk, IsOk};
ghost use Rattle.warg_protobuf.specs.MessageDrafts.{two_texts_kept, init_made};
ghost use Rattle.warg_protobuf.specs.Init.{init_table, InitValue, init_view, init_from, IsInitOf, init_fields, IsSoundInit};

use crate::error::WireError;
use crate::message::Codec;
use crate::message_draft::read_draft;
use crate::shape::{TwoTexts, push_two_texts};
use std::alloc::{AllocError, Global};

/// The entry that begins a log.
#[derive(Debug, Drop, PartialEq, Eq)]
pub struct Init {
    /// Field 1: the text of the first key.
    pub key: String,
    /// Field 2: the name of the hash algorithm.
    pub hash_algorithm: String,
}

/// In an operator log.
pub type OperatorInit = Init;

/// In a package log.
pub type PackageInit = Init;

impl Init {
    /// The message of what is kept.
    pub(crate) fn finish(alloc: Global, draft: TwoTexts<'_>) -> Result<Init, AllocError>
        ensures { IfOk result (λ v. init_view v ≡ init_made (two_texts_kept draft.entry)) }
    {
        Ok(Init {
            key: String::from_str(alloc, draft.first)?,
            hash_algorithm: String::from_str(alloc, draft.second)?,
        })
    }
}

impl Codec for Init {
    ghost table = { init_table };

    ghost View = { InitValue };

    ghost view = { init_view };

    ghost Says = { IsInitOf };

    ghost value = { init_from };

    ghost TakesMemory = { λ said. IsOk said };

    fn read(alloc: Global, bytes: &[u8]) -> Result<Init, WireError> {
        let draft = read_draft::<TwoTexts<'_>>(alloc, bytes)?;
        Ok(Init::finish(alloc, draft)?)
    }

    ghost written_fields = { init_fields };

    ghost is_sound = { IsSoundInit };

    fn write(&self, _alloc: Global, out: &mut Vec<u8>) -> Result<(), AllocError> {
        push_two_texts(out, &self.key, &self.hash_algorithm)
    }

    fn laws() {}
}

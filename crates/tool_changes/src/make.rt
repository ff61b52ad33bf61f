//! Records in few words: signed by the toy scheme, so that anyone has a log to try things on, or for a key to sign.
mod entries;
mod entry_from_words;
mod error;
mod making;
mod operator_words;
mod package_words;
mod rest;
mod sealed;
mod time_words;

pub use entry_from_words::EntryFromWords;
pub use error::{EntryFault, MakeError};
pub use making::{make, make_unsigned};
pub use sealed::{UnsignedRecord, signed_later};

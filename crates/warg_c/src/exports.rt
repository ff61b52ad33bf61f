//! The logs of a package registry, checked by the proved library. docs/PROOFS.md says what is proved of each call.
//!
//! Link with `pkg-config --cflags --libs warg`, or with libwarg.a or libwarg.so of dist/.
//!
//!     struct warg_log log = {0};
//!     uint32_t status = warg_open(&log, WARG_PACKAGE);
//!     status = warg_append_signed(&log, envelope, envelope_len, text, sizeof text, &used);
//!     warg_close(&log);
//!
//! The library verifies ECDSA P-256 itself; any other scheme is the caller's: `warg_ask` judges all of a record but its signature and
//! says what has to be verified, and `warg_append` takes the caller's word for it, and the record with it.
//!
//!     struct warg_asked asked = {0};
//!     status = warg_ask(&log, envelope, envelope_len, bytes, sizeof bytes, &used, &asked);
//!     bool belongs = verify(bytes, &asked);
//!     status = warg_append(&log, envelope, envelope_len, bytes, used, &asked, belongs, text, sizeof text, &used);
//!
//! What the caller owes in every call. The library can't see it, and nothing is promised where it does not hold:
//!   - No pointer is null, also where it leads to no bytes (pass "" there).
//!   - Each pointer leads to as many bytes, or links, as its length says, all of them initialised, fewer than 2^63.
//!   - What a call writes to overlaps nothing else that is passed to it; so two logs of a call are two.
//!   - A `bool` is 0 or 1.
//!   - A `struct warg_log` is all 0 bytes, or as the last call left it. It is not copied to be used twice.
//!   - A log serves one call at a time. It may go to another thread, ordered by a lock, a thread's start or join, or a
//!     sequentially consistent atomic. Different logs may be used by different threads at once: there is no global state.
//!   - The same holds of a `struct warg_registry`, but that it stays on one thread.
//!
//! What every call keeps. It returns a status. At any status but WARG_OK all logs and registries stay as they were. Calls that only look also
//! leave them so at WARG_OK. All texts are UTF-8, with no zero byte behind them. WARG_OUT_OF_MEMORY is an answer of calls that take memory
//! alone, and only where they came to take some: `warg_length`, `warg_head_of`, `warg_compare`, `warg_registry_length`, `warg_version` and
//! `warg_status_name` never do.
//!
//! Calls that give bytes write them to the start of the caller's buffer, and to `used` how many they are. What stands behind them stays as it
//! was:
//!   - at WARG_OK, how many bytes were written;
//!   - at WARG_TOO_SMALL, how many there have to be room for; the buffer stays as it was;
//!   - at WARG_NO_ENVELOPE, WARG_REFUSED and WARG_BAD_ARGUMENT, the length of the error's text, which stands in the buffer: the error's name,
//!     a colon, a space, and a sentence; or 0 where the buffer had no room for it. Where there was no memory for the sentence of a
//!     WARG_NO_ENVELOPE or a WARG_REFUSED, the text is the name alone;
//!   - at any other status 0, and the buffer stays as it was. `warg_status_name` gives the name of each status.
//! What else a call gives (`asked`, `kept`, `release`, `is_imported`, `roots`, `head`) is written at WARG_OK and at WARG_TOO_SMALL, and `length`,
//! `place` and `comparison` at WARG_OK. At any other status it stays as it was.

mod appending;
mod chains;
mod checkpoint_texts;
mod checkpoints;
mod comparing;
mod contradictions;
mod forks;
mod identifying;
mod keys;
mod log_names;
mod namespaces;
mod opening;
mod proof_faults;
mod proofs;
mod records;
mod registries;
mod registry_proofs;
mod registry_saving;
mod releases;
mod saving;
mod statuses;
mod verifying;
mod version;

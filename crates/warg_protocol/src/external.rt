//! Logs whose signatures are verified elsewhere: what is to be verified is asked, and what came of it is told.

pub use warg_replay::external::{
    ExternallyVerified, SignatureCheck, SignatureVerdict, append, ask,
};

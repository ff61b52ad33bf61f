//! The names that 0.1.0 gave to what is in [`external`](crate::external).

pub use crate::external::{
    ExternallyVerified as Hosted, SignatureCheck as Question, SignatureVerdict as Told, append, ask,
};

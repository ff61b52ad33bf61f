//! Lines that are printed, as objects of JSON: which words of a line are members of its object, by tables of forms.
mod fit;
mod form;
pub mod laws;
mod object;

pub use form::{CommandForms, Form, Part};
pub use object::{line_object, message_object, path_object};

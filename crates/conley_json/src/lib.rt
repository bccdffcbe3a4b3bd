//! JSON values: how bytes are read, what a part of a value stands for by its form, and how a part is written.
//! A contract sees a value as serde_json's stated reading gives it (`json_of`), and a part of it by a form:
//! a text, a number in a range, a list of one form, a list of two or three.
//! Open specs/Form.antt first. Problems and certificates are read through this crate, so both call the same bytes well-formed.
#![tactic(auto)]

mod form;
mod reading;
mod written;

pub use form::{Form, member, object_member};
pub use reading::{JsonError, read_json};
pub use written::Written;

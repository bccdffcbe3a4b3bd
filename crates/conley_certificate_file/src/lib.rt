//! Certificates and their JSON text.
//! A contract sees bytes as serde_json's stated reading has them, and a certificate as its lists and matrices.
//! Open specs/Certificate.antt first: what a certificate is, when it fits a complex, and what a file says of one; then specs/Reading.antt
//! with specs/Refusals.antt, the table of refusals, and specs/Text.antt. The form of a file, all eleven members by their numbers, is specs/File.antt.
#![tactic(auto)]

mod certificate;
mod error;
mod file;
mod laws;
mod matrices;
mod order;
mod reading;
mod sets;
mod text;
mod writing;

pub use certificate::Certificate;
pub use error::{CertError, CertFault};
pub use laws::{bytes_come_to_one_thing, texts_are_one};
use std::alloc::AllocError;

/// Where there is no memory.
pub type NoMemory = AllocError;

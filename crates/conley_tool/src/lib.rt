//! The commands and the top call.
//! `run` reads its words, fetches the files that they name, and puts a text on `out` and a line on `err`.
//! What is due for words and files is specs/Headline.antt; each outcome's cause, and what `out` gained, are specs/Outcomes.antt.
//! What a command prints or refuses stands in the spec module of its name, over the definitions of the crates below.
#![tactic(auto)]

mod analyze;
mod answer;
mod check;
mod classes;
mod fetch;
mod field;
mod laws;
mod morse;
mod outcome;
mod report;
mod sets;
mod top;
mod trial;
mod words;

pub use laws::one_is_due;
pub use outcome::{Fault, Outcome};
pub use top::run;

/// The most bytes of the file of a problem: 64 MiB.
pub const FILE_LIMIT: usize = 67_108_864;

/// The most bytes of a certificate: 128 MiB.
pub const CERTIFICATE_LIMIT: usize = 134_217_728;

//! The summary of an analysis.

ghost use Rattle.std.specs.Prelude.{◌≡◌, ◌<◌, ◌^◌, length};
ghost use Rattle.conley_chains.specs.Matrix.{column_count};
ghost use Rattle.conley_certificate_file.specs.CertificateMeaning.{meaning_of};

use crate::numbers::{entry_count, euler, index_sum};
use conley_certificate_file::Certificate;
use conley_field::AnyField;
use conley_lefschetz::Complex;

/// What is told of an analysis in a few numbers.
#[derive(Clone, Copy, Debug, PartialEq, Eq)]
pub struct Summary {
    /// How many cells there are.
    pub cells: u64,
    /// How many Morse sets there are.
    pub morse: u64,
    /// The sums of the Conley numbers of all sets at dimensions 0, 1 and 2.
    pub index: [u64; 3],
    /// The number of cells of dimension 0, less those of dimension 1, plus those of dimension 2.
    pub euler: i64,
    /// How many entries other than zero the connection matrix has.
    pub entries: u64,
}

impl Summary {
    ghost use Rattle.conley_trial.specs.Summary.{summary_of};

    /// The summary of a complex and of a certificate over it. No memory.
    pub fn of(complex: &Complex<AnyField>, certificate: &Certificate) -> Summary
        requires sets { length certificate.now.index.items < 2 ^ 32 }
        requires rows { certificate.now.matrix.rows < 2 ^ 32 }
        requires columns { column_count certificate.now.matrix < 2 ^ 32 }
        ensures { result ≡ summary_of complex.now.1 (meaning_of certificate.now) }
    {
        let cells = complex.count() as u64;
        let numbers = &certificate.index;
        Summary {
            cells,
            morse: certificate.morse.len() as u64,
            index: [
                index_sum(numbers, 0),
                index_sum(numbers, 1),
                index_sum(numbers, 2),
            ],
            euler: euler(complex.dims()),
            entries: entry_count(&certificate.matrix),
        }
    }
}

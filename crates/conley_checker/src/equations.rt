//! The first place where an equation fails. A column of each side is alive at a time.

ghost use Rattle.std.specs.Prelude.{◌≡◌, IfOk};
ghost use Rattle.conley_certificate_file.specs.CertificateMeaning.{meaning_of};
ghost use Rattle.conley_certificate.specs.Places.{first_place};
ghost use Rattle.conley_certificate.specs.Problem.{problem_of};
ghost use Rattle.conley_checker.specs.Given.{AreGiven};
ghost use Rattle.conley_checker.specs.Equations.{law_of};

use crate::difference::first_difference;
use crate::equation::{Equation, column_count, sides_at};
use conley_certificate::Reason;
use conley_certificate_file::Certificate;
use conley_chains::NoMemory;
use conley_field::Field;
use conley_lefschetz::Complex;
use conley_mvf::Partition;
use std::alloc::Global;

/// The reason at the first place, by columns, then rows, where the sides differ.
pub(crate) fn compare_equation<F: Field>(
    alloc: Global,
    complex: &Complex<F>,
    partition: &Partition,
    certificate: &Certificate,
    equation: Equation,
) -> Result<Option<Reason>, NoMemory>
    requires given { AreGiven (problem_of (F.arithmetic complex.now.0) complex.now.1 partition.now) (meaning_of certificate.now) }
    ensures { IfOk result (λ found. found ≡ first_place (law_of (problem_of (F.arithmetic complex.now.0) complex.now.1 partition.now)
        (meaning_of certificate.now) equation)) }
{
    for column in 0..column_count(complex, partition, certificate, equation) {
        let here = column as u32;
        let both = sides_at(alloc, complex, partition, certificate, equation, here)?;
        match first_difference(&both.have, &both.want) {
            Some(d) => {
                return Ok(Some(Reason {
                    law: equation.number(),
                    part: 0,
                    row: d.0,
                    column: here,
                    have: d.1 as u64,
                    want: d.2 as u64,
                }));
            }
            None => {}
        }
    }
    Ok(None)
}

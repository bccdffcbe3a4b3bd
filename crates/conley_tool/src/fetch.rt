//! Files and the problems that they stand for.

ghost use Rattle.std.specs.Prelude.{◌≡◌, ◌≤◌, IfOk, IfErr};
ghost use Rattle.conley_outside.specs.Faults.{Rose};
ghost use Rattle.conley_input.specs.Problem.{IsSound};
ghost use Rattle.conley_input.specs.ProblemMeaning.{meaning_of};
ghost use Rattle.conley_tool.specs.Fetches.{Holds};
ghost use Rattle.conley_tool.specs.Ends.{FetchCause, ProblemCause, StandsFor};

use crate::{FILE_LIMIT, Fault, Outcome};
use conley_input::{InputError, Problem};
use conley_outside::{Depot, FetchError};
use std::alloc::Global;

/// Fetches a file whole, or gives the outcome that ends the run.
pub(crate) fn read_file<D: Depot>(
    alloc: Global,
    name: &str,
    limit: usize,
    depot: &mut D,
) -> Result<Vec<u8>, Outcome>
    ensures ok { IfOk result (λ bytes. Holds (D.files depot.old) name.now limit bytes.items) }
    ensures err { IfErr result (FetchCause (D.files depot.old) name.now limit (Rose (D.faults depot.old) (D.faults depot.new))) }
    ensures same_files { D.files depot.new ≡ D.files depot.old }
    ensures later { D.faults depot.old ≤ D.faults depot.new }
{
    let mut bytes = Vec::new(alloc);
    match depot.fetch(alloc, name, limit, &mut bytes) {
        Ok(()) => Ok(bytes),
        Err(FetchError::Failed) => Err(Outcome::ReadFault),
        Err(FetchError::TooLong) => Err(Outcome::TooLong),
        Err(FetchError::NoMemory) => Err(Outcome::NoMemory),
    }
}

/// The problem in a file, or the outcome that ends the run.
pub(crate) fn read_problem<D: Depot>(
    alloc: Global,
    name: &str,
    depot: &mut D,
) -> Result<Problem, Outcome>
    ensures ok { IfOk result (λ problem. StandsFor (D.files depot.old) name.now (meaning_of problem)) }
    ensures sound { IfOk result (λ problem. IsSound (meaning_of problem)) }
    ensures err { IfErr result (ProblemCause (D.files depot.old) name.now (Rose (D.faults depot.old) (D.faults depot.new))) }
    ensures same_files { D.files depot.new ≡ D.files depot.old }
    ensures later { D.faults depot.old ≤ D.faults depot.new }
{
    let bytes = read_file(alloc, name, FILE_LIMIT, depot)?;
    match Problem::from_json(alloc, &bytes) {
        Ok(problem) => Ok(problem),
        Err(InputError::Bad(fault)) => Err(Outcome::Refused(Fault::File(fault))),
        Err(InputError::NoMemory) => Err(Outcome::NoMemory),
    }
}

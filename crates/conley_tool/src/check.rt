//! `check FILE CERT`: whether a certificate is an analysis of a problem.

ghost use Rattle.std.specs.Prelude.{◌≡◌, ◌≤◌, IfOk, IfErr};
ghost use Rattle.conley_outside.specs.Faults.{Rose};
ghost use Rattle.conley_field.specs.Prime.{residues};
ghost use Rattle.conley_input.specs.Problem.{IsSound};
ghost use Rattle.conley_input.specs.ProblemMeaning.{meaning_of};
ghost use Rattle.conley_tool.specs.Analyze.{in_full};
ghost use Rattle.conley_tool.specs.Check.{VerdictIsDue, AfterCertificate, CheckIsDue};
ghost use Rattle.conley_tool.specs.Ends.{EndCause, due_of};

use crate::answer::Answer;
use crate::fetch::read_file;
use crate::{CERTIFICATE_LIMIT, Fault, Outcome};
use conley_certificate_file::CertError;
use conley_checker::{CheckError, check_text};
use conley_input::Problem;
use conley_outside::Depot;
use std::alloc::Global;

/// The verdict on the certificate that bytes stand for, or their refusal.
fn verdict_on(alloc: Global, problem: &Problem, bytes: &[u8]) -> Result<Answer, Outcome>
    requires { IsSound (meaning_of problem.now) }
    ensures ok { IfOk result (λ answer. AfterCertificate (residues (meaning_of problem.now).order) problem.now.complex.1 bytes.now
        (VerdictIsDue (in_full (meaning_of problem.now))) (due_of answer)) }
    ensures err { IfErr result (EndCause (AfterCertificate (residues (meaning_of problem.now).order) problem.now.complex.1 bytes.now
        (VerdictIsDue (in_full (meaning_of problem.now)))) ⊥) }
{
    match check_text(alloc, bytes, &problem.complex, &problem.partition) {
        Ok(Ok(())) => Ok(Answer::Accepts),
        Ok(Err(CheckError::Rejected(reason))) => Err(Outcome::Rejected(reason)),
        Ok(Err(CheckError::NoMemory)) => Err(Outcome::NoMemory),
        Err(CertError::Bad(fault)) => Err(Outcome::Refused(Fault::Cert(fault))),
        Err(CertError::NoMemory) => Err(Outcome::NoMemory),
    }
}

/// The verdict on the certificate in a file.
pub(crate) fn answer_check<D: Depot>(
    alloc: Global,
    problem: &Problem,
    name: &str,
    depot: &mut D,
) -> Result<Answer, Outcome>
    requires { IsSound (meaning_of problem.now) }
    ensures ok { IfOk result (λ answer. CheckIsDue (D.files depot.old) name.now (meaning_of problem.now) (due_of answer)) }
    ensures err { IfErr result (EndCause (CheckIsDue (D.files depot.old) name.now (meaning_of problem.now)) (Rose (D.faults depot.old) (D.faults depot.new))) }
    ensures same_files { D.files depot.new ≡ D.files depot.old }
    ensures later { D.faults depot.old ≤ D.faults depot.new }
{
    let bytes = read_file(alloc, name, CERTIFICATE_LIMIT, depot)?;
    let answer = verdict_on(alloc, problem, &bytes)?;
    Ok(answer)
}

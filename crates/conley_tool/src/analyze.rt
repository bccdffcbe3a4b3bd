//! `analyze FILE`: the certificate of an analysis of a problem.

ghost use Rattle.std.specs.Prelude.{◌≡◌, ◌∷◌, ◌++◌, [], IfOk, IfErr};
ghost use Rattle.conley_input.specs.Problem.{IsSound};
ghost use Rattle.conley_input.specs.ProblemMeaning.{meaning_of};
ghost use Rattle.conley_tool.specs.Analyze.{AnalysisIsDue};
ghost use Rattle.conley_tool.specs.Ends.{EndCause, due_of};

use crate::answer::Answer;
use crate::{Fault, Outcome};
use conley_analysis::analysis_text;
use conley_input::Problem;
use conley_morse::MorseError;
use std::alloc::{AllocError, Global};

/// A text with a line feed at its end.
fn with_end(mut text: Vec<u8>) -> Result<Vec<u8>, AllocError>
    ensures { IfOk result (λ whole. whole.items ≡ text.items ++ (10 ∷ [])) }
{
    text.push(b'\n')?;
    Ok(text)
}

/// The text of an analysis, or the refusal of too many Morse sets.
pub(crate) fn answer_analyze(alloc: Global, problem: &Problem) -> Result<Answer, Outcome>
    requires { IsSound (meaning_of problem.now) }
    ensures ok { IfOk result (λ answer. AnalysisIsDue (meaning_of problem.now) (due_of answer)) }
    ensures err { IfErr result (EndCause (AnalysisIsDue (meaning_of problem.now)) ⊥) }
{
    let text = match analysis_text(alloc, &problem.complex, &problem.partition) {
        Ok(text) => text,
        Err(MorseError::TooManyMorse(count)) => return Err(Outcome::Refused(Fault::Morse(count))),
        Err(MorseError::NoMemory) => return Err(Outcome::NoMemory),
    };
    Ok(Answer::Prints(with_end(text)?))
}

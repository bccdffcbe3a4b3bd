//! `classes FILE`: the recurrence classes of a problem.

ghost use Rattle.std.specs.Prelude.{IfOk, IfErr};
ghost use Rattle.conley_input.specs.Problem.{IsSound};
ghost use Rattle.conley_input.specs.ProblemMeaning.{meaning_of};
ghost use Rattle.conley_tool.specs.Classes.{IsClassesText, ClassesAreDue};
ghost use Rattle.conley_tool.specs.Ends.{EndCause, due_of};

use crate::Outcome;
use crate::answer::Answer;
use conley_input::Problem;
use conley_texts::{Words, push_line};
use conley_transitions::recurrence_classes;
use std::alloc::{AllocError, Global};

/// A line for each recurrence class.
fn classes_text(alloc: Global, problem: &Problem) -> Result<Vec<u8>, AllocError>
    requires { IsSound (meaning_of problem.now) }
    ensures { IfOk result (λ text. IsClassesText (meaning_of problem.now) text.items) }
{
    let faces = problem.complex.faces();
    let classes = recurrence_classes(alloc, faces, &problem.partition)?;
    let mut text = Vec::new(alloc);
    for k in 0..classes.len() {
        push_line(&mut text, &[Words::Labels(&problem.complex, &classes[k])])?;
    }
    Ok(text)
}

/// The text of the recurrence classes.
pub(crate) fn answer_classes(alloc: Global, problem: &Problem) -> Result<Answer, Outcome>
    requires { IsSound (meaning_of problem.now) }
    ensures ok { IfOk result (λ answer. ClassesAreDue (meaning_of problem.now) (due_of answer)) }
    ensures err { IfErr result (EndCause (ClassesAreDue (meaning_of problem.now)) ⊥) }
{
    Ok(Answer::Prints(classes_text(alloc, problem)?))
}

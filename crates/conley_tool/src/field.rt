//! `field FILE`: the parts of a problem, each regular or critical.

ghost use Rattle.std.specs.Prelude.{◌≡◌, ◌<◌, ◌++◌, ◌∷◌, ℕ, List, All, OnOk, IfOk, IfErr, if◌then◌else◌, codes, length};
ghost use Rattle.conley_input.specs.Problem.{IsSound};
ghost use Rattle.conley_input.specs.ProblemMeaning.{meaning_of};
ghost use Rattle.conley_texts.specs.Line.{line, text_of};
ghost use Rattle.conley_texts.specs.Words.{labels_of};
ghost use Rattle.conley_tool.specs.Field.{AreFieldLines, FieldIsDue};
ghost use Rattle.conley_tool.specs.Ends.{EndCause, due_of};

use crate::Outcome;
use crate::answer::Answer;
use conley_homology::is_regular;
use conley_input::Problem;
use conley_texts::{Words, push_line};
use std::alloc::{AllocError, Global};

/// Puts the line of a part.
fn push_part<'x>(
    text: &mut Vec<u8>,
    problem: &'x Problem,
    cells: &'x [u32],
    regular: bool,
) -> Result<(), AllocError>
    requires { All (λ x. x < length problem.now.complex.1.dims) cells.now }
    ensures { OnOk result (text.new.items ≡ text.old.items ++ line ((if regular then codes "regular" else codes "critical") ∷ labels_of
        problem.now.complex.1.labels cells.now)) }
{
    let kind = if regular { "regular" } else { "critical" };
    push_line(
        text,
        &[Words::Word(kind), Words::Labels(&problem.complex, cells)],
    )
}

/// A line for each part, in the order of their least cells.
fn field_text(alloc: Global, problem: &Problem) -> Result<Vec<u8>, AllocError>
    requires { IsSound (meaning_of problem.now) }
    ensures { IfOk result (λ text. (lines : List (List (List ℕ))) × AreFieldLines (meaning_of problem.now) lines × (text.items ≡ text_of lines)) }
{
    let complex = &problem.complex;
    let mut text = Vec::new(alloc);
    for p in 0..problem.partition.count() as u32 {
        let cells = problem.partition.cells_of(p);
        let regular = is_regular(alloc, complex, cells)?;
        push_part(&mut text, problem, cells, regular)?;
    }
    Ok(text)
}

/// The text of the parts.
pub(crate) fn answer_field(alloc: Global, problem: &Problem) -> Result<Answer, Outcome>
    requires { IsSound (meaning_of problem.now) }
    ensures ok { IfOk result (λ answer. FieldIsDue (meaning_of problem.now) (due_of answer)) }
    ensures err { IfErr result (EndCause (FieldIsDue (meaning_of problem.now)) ⊥) }
{
    Ok(Answer::Prints(field_text(alloc, problem)?))
}

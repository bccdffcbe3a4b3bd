//! `sets FILE`: what stays in the named sets of a problem, which of them are isolated, and with which index.

ghost use Rattle.std.specs.Prelude.{◌≡◌, ◌<◌, ◌++◌, List, ℕ, All, OnOk, IfOk, IfErr, length, string_bytes};
ghost use Rattle.conley_input.specs.Problem.{IsSound};
ghost use Rattle.conley_input.specs.ProblemMeaning.{meaning_of};
ghost use Rattle.conley_isolation.specs.Report.{findings_of};
ghost use Rattle.conley_texts.specs.Line.{line, text_of};
ghost use Rattle.conley_tool.specs.Sets.{set_words, AreSetLines, SetsAreDue};
ghost use Rattle.conley_tool.specs.Ends.{EndCause, due_of};

use crate::Outcome;
use crate::answer::Answer;
use conley_field::AnyField;
use conley_input::{NamedSet, Problem};
use conley_isolation::{SetReport, report};
use conley_lefschetz::Complex;
use conley_texts::{Words, push_line};
use std::alloc::{AllocError, Global};

/// Puts the line of a set.
fn push_set<'x>(
    text: &mut Vec<u8>,
    complex: &'x Complex<AnyField>,
    named: &'x NamedSet,
    told: &'x SetReport,
) -> Result<(), AllocError>
    requires { All (λ x. x < length complex.now.1.dims) told.now.invariant.items }
    ensures { OnOk result (text.new.items ≡ text.old.items ++ line (set_words complex.now.1.labels (string_bytes named.now.name) (findings_of told.now))) }
{
    let cells = Words::Labels(complex, &told.invariant);
    match &told.index {
        Some(numbers) => {
            let words = [
                Words::Word("set"),
                Words::Word(named.name.as_str()),
                Words::Word("isolated"),
                Words::Word("yes"),
                Words::Word("index"),
                Words::Numbers(numbers),
                Words::Word("invariant"),
                cells,
            ];
            push_line(text, &words)
        }
        None => {
            let words = [
                Words::Word("set"),
                Words::Word(named.name.as_str()),
                Words::Word("isolated"),
                Words::Word("no"),
                Words::Word("invariant"),
                cells,
            ];
            push_line(text, &words)
        }
    }
}

/// A line for each named set, in their order.
fn sets_text(alloc: Global, problem: &Problem) -> Result<Vec<u8>, AllocError>
    requires { IsSound (meaning_of problem.now) }
    ensures { IfOk result (λ text. (lines : List (List (List ℕ))) × AreSetLines (meaning_of problem.now) (meaning_of problem.now).sets lines
        × (text.items ≡ text_of lines)) }
{
    let complex = &problem.complex;
    let mut text = Vec::new(alloc);
    for named in &problem.sets {
        let told = report(alloc, complex, &problem.partition, &named.cells)?;
        push_set(&mut text, complex, named, &told)?;
    }
    Ok(text)
}

/// The text of the named sets.
pub(crate) fn answer_sets(alloc: Global, problem: &Problem) -> Result<Answer, Outcome>
    requires { IsSound (meaning_of problem.now) }
    ensures ok { IfOk result (λ answer. SetsAreDue (meaning_of problem.now) (due_of answer)) }
    ensures err { IfErr result (EndCause (SetsAreDue (meaning_of problem.now)) ⊥) }
{
    Ok(Answer::Prints(sets_text(alloc, problem)?))
}

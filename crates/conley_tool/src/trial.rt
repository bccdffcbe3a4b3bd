//! `trial K`: the summary of a problem that is made for a number, and of an analysis of it.

ghost use Rattle.std.specs.Prelude.{◌≡◌, ◌++◌, ◌∷◌, [], true, is_some, map, codes, decimal, OnOk, IfOk, IfErr};
ghost use Rattle.std.specs.Fmt.{signed_decimal};
ghost use Rattle.conley_input.specs.Problem.{IsSound};
ghost use Rattle.conley_input.specs.ProblemMeaning.{meaning_of};
ghost use Rattle.conley_texts.specs.Line.{line, text_of};
ghost use Rattle.conley_tool.specs.Ends.{EndCause, due_of};
ghost use Rattle.conley_tool.specs.Trial.{IsMade, summary_lines, SummaryIsDue};
ghost use Rattle.conley_tool.specs.Words as words;

use crate::answer::Answer;
use crate::words::number_of;
use crate::{Fault, Outcome};
use conley_analysis::analyze;
use conley_input::Problem;
use conley_morse::MorseError;
use conley_texts::{Words, push_line};
use conley_trial::{Summary, trial_problem};
use itoa::Buffer;
use std::alloc::{AllocError, Global};

/// The problem that is made for the number which a word says.
pub(crate) fn made_problem(alloc: Global, word: &str) -> Result<Problem, AllocError>
    requires { is_some (words.number_of word.now) ≡ true }
    ensures made { IfOk result (λ problem. IsMade word.now (meaning_of problem)) }
    ensures sound { IfOk result (λ problem. IsSound (meaning_of problem)) }
{
    match number_of(word) {
        Some(number) => trial_problem(alloc, number),
        None => unreachable!(),
    }
}

/// Puts a line of a word and a number.
fn push_count(text: &mut Vec<u8>, word: &str, number: u64) -> Result<(), AllocError>
    ensures { OnOk result (text.new.items ≡ text.old.items ++ line (word.now ∷ decimal number ∷ [])) }
{
    push_line(text, &[Words::Word(word), Words::Number(number)])
}

/// Puts the line of the sums of the indices.
fn push_index(text: &mut Vec<u8>, sums: &[u64; 3]) -> Result<(), AllocError>
    ensures { OnOk result (text.new.items ≡ text.old.items ++ line (codes "index" ∷ map decimal sums.now)) }
{
    let words = [
        Words::Word("index"),
        Words::Number(sums[0]),
        Words::Number(sums[1]),
        Words::Number(sums[2]),
    ];
    push_line(text, &words)
}

/// Puts the line of Euler's number.
fn push_euler(text: &mut Vec<u8>, number: i64) -> Result<(), AllocError>
    ensures { OnOk result (text.new.items ≡ text.old.items ++ line (codes "euler" ∷ signed_decimal number ∷ [])) }
{
    let mut digits = Buffer::new();
    push_line(
        text,
        &[Words::Word("euler"), Words::Word(digits.format(number))],
    )
}

/// The lines of a summary.
fn summary_text(alloc: Global, summary: &Summary) -> Result<Vec<u8>, AllocError>
    ensures { IfOk result (λ text. text.items ≡ text_of (summary_lines summary.now)) }
{
    let mut text = Vec::new(alloc);
    push_count(&mut text, "cells", summary.cells)?;
    push_count(&mut text, "morse", summary.morse)?;
    push_index(&mut text, &summary.index)?;
    push_euler(&mut text, summary.euler)?;
    push_count(&mut text, "entries", summary.entries)?;
    Ok(text)
}

/// The text of the summary of an analysis, or the refusal of too many Morse sets.
pub(crate) fn answer_trial(alloc: Global, problem: &Problem) -> Result<Answer, Outcome>
    requires { IsSound (meaning_of problem.now) }
    ensures ok { IfOk result (λ answer. SummaryIsDue (meaning_of problem.now) (due_of answer)) }
    ensures err { IfErr result (EndCause (SummaryIsDue (meaning_of problem.now)) ⊥) }
{
    let certificate = match analyze(alloc, &problem.complex, &problem.partition) {
        Ok(certificate) => certificate,
        Err(MorseError::TooManyMorse(count)) => return Err(Outcome::Refused(Fault::Morse(count))),
        Err(MorseError::NoMemory) => return Err(Outcome::NoMemory),
    };
    let _kept = certificate.matrix.rows();
    let summary = Summary::of(&problem.complex, &certificate);
    Ok(Answer::Prints(summary_text(alloc, &summary)?))
}

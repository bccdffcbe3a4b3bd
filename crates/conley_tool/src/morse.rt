//! `morse FILE`: the Morse sets of a problem with their Conley indices and their order.

ghost use Rattle.std.specs.Prelude.{◌≡◌, ◌<◌, ◌++◌, All, ℕ, OnOk, IfOk, IfErr, length};
ghost use Rattle.conley_lists.specs.Lists.{items_of};
ghost use Rattle.conley_transitions.specs.Morse.{set_at};
ghost use Rattle.conley_input.specs.Problem.{IsSound};
ghost use Rattle.conley_input.specs.ProblemMeaning.{meaning_of};
ghost use Rattle.conley_texts.specs.Line.{line, text_of};
ghost use Rattle.conley_tool.specs.Morse.{set_words, order_words, morse_lines, MorseIsDue};
ghost use Rattle.conley_tool.specs.Ends.{EndCause, due_of, graph_of};

use crate::answer::Answer;
use crate::{Fault, Outcome};
use conley_field::AnyField;
use conley_input::Problem;
use conley_lefschetz::Complex;
use conley_morse::{Decomposition, MorseError, morse};
use conley_texts::{Words, push_line};
use std::alloc::{AllocError, Global};

/// Puts the line of a Morse set: its number, its Conley numbers, the labels of its cells.
fn push_set<'x>(
    text: &mut Vec<u8>,
    complex: &'x Complex<AnyField>,
    found: &'x Decomposition,
    m: usize,
) -> Result<(), AllocError>
    requires set { m < length found.now.sets.items }
    requires count { length found.now.numbers.items ≡ length found.now.sets.items }
    requires cells { All (λ x. x < length complex.now.1.dims) (set_at (items_of found.now.sets.items) m) }
    ensures { OnOk result (text.new.items ≡ text.old.items ++ line (set_words complex.now.1.labels (graph_of found.now) m)) }
{
    let words = [
        Words::Word("set"),
        Words::Number(m as u64),
        Words::Word("index"),
        Words::Numbers(&found.numbers[m]),
        Words::Word("cells"),
        Words::Labels(complex, &found.sets[m]),
    ];
    push_line(text, &words)
}

/// Puts the line of a pair of the order.
fn push_pair(text: &mut Vec<u8>, pair: &(u32, u32)) -> Result<(), AllocError>
    ensures { OnOk result (text.new.items ≡ text.old.items ++ line (order_words pair.now)) }
{
    let words = [
        Words::Word("order"),
        Words::Number(pair.0 as u64),
        Words::Number(pair.1 as u64),
    ];
    push_line(text, &words)
}

/// The lines of the Morse sets, then those of their order.
fn morse_text(
    alloc: Global,
    complex: &Complex<AnyField>,
    found: &Decomposition,
) -> Result<Vec<u8>, AllocError>
    requires count { length found.now.numbers.items ≡ length found.now.sets.items }
    requires cells { (m : ℕ) → m < length found.now.sets.items → All (λ x. x < length complex.now.1.dims) (set_at (items_of found.now.sets.items) m) }
    ensures { IfOk result (λ text. text.items ≡ text_of (morse_lines complex.now.1.labels (graph_of found.now))) }
{
    let mut text = Vec::new(alloc);
    for m in 0..found.sets.len() {
        push_set(&mut text, complex, found, m)?;
    }
    for pair in &found.order {
        push_pair(&mut text, pair)?;
    }
    Ok(text)
}

/// The text of the Morse sets, or the refusal of too many.
pub(crate) fn answer_morse(alloc: Global, problem: &Problem) -> Result<Answer, Outcome>
    requires { IsSound (meaning_of problem.now) }
    ensures ok { IfOk result (λ answer. MorseIsDue (meaning_of problem.now) (due_of answer)) }
    ensures err { IfErr result (EndCause (MorseIsDue (meaning_of problem.now)) ⊥) }
{
    let found = match morse(alloc, &problem.complex, &problem.partition) {
        Ok(found) => found,
        Err(MorseError::TooManyMorse(count)) => return Err(Outcome::Refused(Fault::Morse(count))),
        Err(MorseError::NoMemory) => return Err(Outcome::NoMemory),
    };
    Ok(Answer::Prints(morse_text(alloc, &problem.complex, &found)?))
}

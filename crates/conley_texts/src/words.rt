//! Words and lines at the end of a text.

ghost use Rattle.std.specs.Prelude.{◌≡◌, ◌++◌, ◌||◌, ◌<◌, All, OnOk, OnErr, IfOk, decimal, false, length, map};
ghost use Rattle.std.specs.Io.{StartsWith};
ghost use Rattle.std.specs.List.{flat_map};
ghost use Rattle.conley_texts.specs.Line.{line};

use conley_field::AnyField;
use conley_lefschetz::Complex;
use itoa::Buffer;
use std::alloc::AllocError;

/// Words of a line, by what they are made from.
#[derive(Clone, Copy)]
pub enum Words<'a> {
    /// One word.
    Word(&'a str),
    /// A number in decimal digits.
    Number(u64),
    /// Each number of a list.
    Numbers(&'a [u32]),
    /// The label of each cell of a list.
    Labels(&'a Complex<AnyField>, &'a [u32]),
}

ghost use Rattle.conley_texts.specs.Words.{labels_of, words_of, IsWritten, AreWritten, behind, joined, is_some};

/// Puts a word behind those that a line has.
fn push_word(text: &mut Vec<u8>, some: bool, word: &[u8]) -> Result<(), AllocError>
    ensures text { OnOk result (text.new.items ≡ text.old.items ++ behind some word.now) }
    ensures kept { StartsWith text.new.items text.old.items }
{
    if some {
        text.push(b' ')?;
    }
    text.extend_from_slice(word)?;
    Ok(())
}

/// Puts a number behind the words that a line has.
fn push_number(text: &mut Vec<u8>, some: bool, number: u64) -> Result<(), AllocError>
    ensures text { OnOk result (text.new.items ≡ text.old.items ++ behind some (decimal number)) }
    ensures kept { StartsWith text.new.items text.old.items }
{
    let mut digits = Buffer::new();
    push_word(text, some, digits.format(number).as_bytes())
}

/// Puts each number behind the words that a line has, and says whether it has words now.
fn push_numbers(text: &mut Vec<u8>, mut some: bool, numbers: &[u32]) -> Result<bool, AllocError>
    ensures text { OnOk result (text.new.items ≡ text.old.items ++ joined some (map decimal numbers.now)) }
    ensures some { IfOk result (λ now. now ≡ some || is_some (map decimal numbers.now)) }
    ensures kept { StartsWith text.new.items text.old.items }
{
    for number in numbers {
        push_number(text, some, *number as u64)?;
        some = true;
    }
    Ok(some)
}

/// Puts the label of each cell behind the words that a line has, and says whether it has words now.
fn push_labels(
    text: &mut Vec<u8>,
    mut some: bool,
    complex: &Complex<AnyField>,
    cells: &[u32],
) -> Result<bool, AllocError>
    requires { All (λ x. x < length complex.now.1.dims) cells.now }
    ensures text { OnOk result (text.new.items ≡ text.old.items ++ joined some (labels_of complex.now.1.labels cells.now)) }
    ensures some { IfOk result (λ now. now ≡ some || is_some (labels_of complex.now.1.labels cells.now)) }
    ensures kept { StartsWith text.new.items text.old.items }
{
    for x in cells {
        push_word(text, some, complex.label(*x).as_bytes())?;
        some = true;
    }
    Ok(some)
}

/// Puts words behind those that a line has, and says whether it has words now.
fn push_words(text: &mut Vec<u8>, some: bool, words: &Words) -> Result<bool, AllocError>
    requires { IsWritten words.now }
    ensures text { OnOk result (text.new.items ≡ text.old.items ++ joined some (words_of words.now)) }
    ensures some { IfOk result (λ now. now ≡ some || is_some (words_of words.now)) }
    ensures kept { StartsWith text.new.items text.old.items }
{
    match *words {
        Words::Word(word) => {
            push_word(text, some, word.as_bytes())?;
            Ok(true)
        }
        Words::Number(number) => {
            push_number(text, some, number)?;
            Ok(true)
        }
        Words::Numbers(numbers) => push_numbers(text, some, numbers),
        Words::Labels(complex, cells) => push_labels(text, some, complex, cells),
    }
}

/// Puts the words of each part, as the first words of a line.
fn push_parts(text: &mut Vec<u8>, parts: &[Words]) -> Result<(), AllocError>
    requires { AreWritten parts.now }
    ensures text { OnOk result (text.new.items ≡ text.old.items ++ joined false (flat_map words_of parts.now)) }
    ensures kept { StartsWith text.new.items text.old.items }
{
    let mut some = false;
    for part in parts {
        some = push_words(text, some, part)?;
    }
    Ok(())
}

/// Puts a line of these words at the end of a text. Without memory the text stays as it is.
pub fn push_line(text: &mut Vec<u8>, words: &[Words]) -> Result<(), AllocError>
    requires { AreWritten words.now }
    ensures line { OnOk result (text.new.items ≡ text.old.items ++ line (flat_map words_of words.now)) }
    ensures unchanged { OnErr result (text.new.items ≡ text.old.items) }
{
    let count = text.len();
    if push_parts(text, words).is_err() || text.push(b'\n').is_err() {
        text.truncate(count);
        return Err(AllocError);
    }
    Ok(())
}

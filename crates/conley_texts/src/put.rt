//! Putting whole texts, and the lines of faults.

ghost use Rattle.std.specs.Prelude.{◌≡◌, ◌∷◌, ◌++◌, OnOk, OnErr, decimal};
ghost use Rattle.std.specs.List.{flat_map};
ghost use Rattle.conley_first.specs.Told.{words_of};
ghost use Rattle.conley_outside.specs.Faults.{HasCause};
ghost use Rattle.conley_outside.specs.Sink.{gains, GainsPrefix};
ghost use Rattle.conley_texts.specs.Line.{line};

use conley_first::Told;
use conley_outside::{Failed, Sink};
use itoa::Buffer;

/// Puts a whole text. Each put is given all that isn't written yet.
pub fn put_whole<S: Sink>(sink: &mut S, text: &[u8]) -> Result<(), Failed>
    ensures ok { OnOk result (S.written sink.new ≡ gains (S.written sink.old) text.now) }
    ensures err { OnErr result (GainsPrefix (S.written sink.old) text.now (S.written sink.new)) }
    ensures cause { HasCause (S.faults sink.old) (S.faults sink.new) result }
{
    let mut done = 0;
    while done < text.len() {
        done += sink.put(&text[done..])?;
    }
    Ok(())
}

/// Puts pieces of a text, one after another.
fn put_pieces<S: Sink>(sink: &mut S, pieces: &[&[u8]]) -> Result<(), Failed>
    ensures ok { OnOk result (S.written sink.new ≡ gains (S.written sink.old) (flat_map (λ p. p.now) pieces.now)) }
    ensures err { OnErr result (GainsPrefix (S.written sink.old) (flat_map (λ p. p.now) pieces.now) (S.written sink.new)) }
    ensures cause { HasCause (S.faults sink.old) (S.faults sink.new) result }
{
    for piece in pieces {
        put_whole(sink, piece)?;
    }
    Ok(())
}

/// Puts a number behind a space.
fn put_number<S: Sink>(sink: &mut S, number: u64) -> Result<(), Failed>
    ensures ok { OnOk result (S.written sink.new ≡ gains (S.written sink.old) (32 ∷ decimal number)) }
    ensures err { OnErr result (GainsPrefix (S.written sink.old) (32 ∷ decimal number) (S.written sink.new)) }
    ensures cause { HasCause (S.faults sink.old) (S.faults sink.new) result }
{
    let mut digits = Buffer::new();
    put_pieces(sink, &[b" ".as_slice(), digits.format(number).as_bytes()])
}

/// Puts each number behind a space.
fn put_numbers<S: Sink>(sink: &mut S, numbers: &[u64]) -> Result<(), Failed>
    ensures ok { OnOk result (S.written sink.new ≡ gains (S.written sink.old) (flat_map (λ n. 32 ∷ decimal n) numbers.now)) }
    ensures err { OnErr result (GainsPrefix (S.written sink.old) (flat_map (λ n. 32 ∷ decimal n) numbers.now) (S.written sink.new)) }
    ensures cause { HasCause (S.faults sink.old) (S.faults sink.new) result }
{
    for number in numbers {
        put_number(sink, *number)?;
    }
    Ok(())
}

/// Puts a word, and the name of a fault behind it.
fn put_name<S: Sink>(sink: &mut S, word: &str, told: &Told) -> Result<(), Failed>
    ensures ok { OnOk result (S.written sink.new ≡ gains (S.written sink.old) (word.now ++ (32 ∷ told.now.letter ∷ decimal told.now.number))) }
    ensures err { OnErr result (GainsPrefix (S.written sink.old) (word.now ++ (32 ∷ told.now.letter ∷ decimal told.now.number)) (S.written sink.new)) }
    ensures cause { HasCause (S.faults sink.old) (S.faults sink.new) result }
{
    let letter = [b' ', told.letter];
    let mut digits = Buffer::new();
    put_pieces(
        sink,
        &[
            word.as_bytes(),
            letter.as_slice(),
            digits.format(told.number).as_bytes(),
        ],
    )
}

/// Puts the line of a fault: a word, the fault's name, and the numbers that it keeps. It takes no memory.
pub fn put_told<S: Sink>(sink: &mut S, word: &str, told: &Told) -> Result<(), Failed>
    ensures ok { OnOk result (S.written sink.new ≡ gains (S.written sink.old) (line (word.now ∷ words_of told.now))) }
    ensures err { OnErr result (GainsPrefix (S.written sink.old) (line (word.now ∷ words_of told.now)) (S.written sink.new)) }
    ensures cause { HasCause (S.faults sink.old) (S.faults sink.new) result }
{
    put_name(sink, word, told)?;
    put_numbers(sink, told.kept())?;
    put_whole(sink, b"\n")?;
    Ok(())
}

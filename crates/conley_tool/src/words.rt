//! The words of the command line.

ghost use Rattle.std.specs.Prelude.{◌≡◌, ◌<◌, ◌≤◌, map, length, option_map, IfSome, string_bytes, bytes_eq, decimal, true};
ghost use Rattle.conley_tool.specs.CommandMeaning.{meaning_of};
ghost use Rattle.conley_tool.specs.Words as spec;
ghost use Rattle.conley_tool.specs.Words.{arguments_of, command_of};

use itoa::Buffer;

/// What is asked.
#[derive(Clone, Copy)]
pub(crate) enum Verb {
    /// The recurrence classes of the problem in a file.
    Classes,
    /// Its parts, each regular or critical.
    Field,
    /// Its Morse sets with their indices and their order.
    Morse,
    /// What its named sets hold.
    Sets,
    /// An analysis of it, as a certificate.
    Analyze,
    /// Whether a certificate is an analysis of it.
    Check,
    /// The summary of a problem that is made for a number.
    Trial,
}

/// The forms of all words, in the order of the verbs.
pub(crate) const USAGE: &str =
    "usage: conley classes FILE | field FILE | morse FILE | sets FILE | analyze FILE | check FILE CERT | trial K\n";

/// A verb and its arguments.
#[derive(Clone, Copy)]
pub(crate) struct Command<'a> {
    pub(crate) verb: Verb,
    pub(crate) arguments: &'a [String],
}

/// The verb that a word names.
fn verb_of(word: &str) -> Option<Verb>
    ensures { result ≡ spec.verb_of word.now }
{
    match word {
        "classes" => Some(Verb::Classes),
        "field" => Some(Verb::Field),
        "morse" => Some(Verb::Morse),
        "sets" => Some(Verb::Sets),
        "analyze" => Some(Verb::Analyze),
        "check" => Some(Verb::Check),
        "trial" => Some(Verb::Trial),
        _ => None,
    }
}

/// How many arguments a verb takes.
fn argument_count(verb: Verb) -> usize
    ensures count { result ≡ length (arguments_of verb) }
    ensures some { 0 < result }
{
    match verb {
        Verb::Classes | Verb::Field | Verb::Morse | Verb::Sets | Verb::Analyze | Verb::Trial => 1,
        Verb::Check => 2,
    }
}

/// Whether a word is the decimal text of a number.
fn says(word: &str, number: u32) -> bool
    ensures { result ≡ bytes_eq word.now (decimal number) }
{
    Buffer::new().format(number).as_bytes() == word.as_bytes()
}

/// The number from 1 to 60 of which a word is the decimal text.
pub(crate) fn number_of(word: &str) -> Option<u32>
    ensures number { result ≡ spec.number_of word.now }
    ensures some { IfSome result (λ number. 1 ≤ number) }
    ensures few { IfSome result (λ number. number ≤ 60) }
{
    for number in 1..61 {
        if says(word, number) {
            return Some(number);
        }
    }
    None
}

/// Whether the first argument of a verb names the file of a problem.
pub(crate) fn reads_file(verb: Verb) -> bool
    ensures { result ≡ spec.reads_file verb }
{
    match verb {
        Verb::Classes | Verb::Field | Verb::Morse | Verb::Sets | Verb::Analyze | Verb::Check =>
            true,
        Verb::Trial => false,
    }
}

/// Whether words are arguments of a verb.
fn fits(verb: Verb, arguments: &[String]) -> bool
    ensures { result ≡ spec.fits verb (map string_bytes arguments.now) }
{
    if arguments.len() != argument_count(verb) {
        return false;
    }
    match verb {
        Verb::Classes | Verb::Field | Verb::Morse | Verb::Sets | Verb::Analyze | Verb::Check =>
            true,
        Verb::Trial => number_of(arguments[0].as_str()).is_some(),
    }
}

/// The command that words name.
pub(crate) fn parse_words(words: &[String]) -> Option<Command>
    ensures command { option_map meaning_of result ≡ command_of (map string_bytes words.now) }
    ensures some { IfSome result (λ command. 0 < length command.arguments.now) }
    ensures counted { IfSome result (λ command. length command.arguments.now ≡ length (arguments_of command.verb)) }
    ensures number { IfSome result (λ command. spec.are_arguments_of command.verb (map string_bytes command.arguments.now) ≡ true) }
{
    let (word, arguments) = words.split_first()?;
    let verb = verb_of(word.as_str())?;
    if fits(verb, arguments) {
        Some(Command { verb, arguments })
    } else {
        None
    }
}

//! The top call.

ghost use Rattle.std.specs.Prelude.{◌≡◌, ◌⊎◌, ◌<◌, ◌≤◌, map, true, false, None, Some, IfOk, IfErr, is_some, length, string_bytes};
ghost use Rattle.conley_outside.specs.Faults.{Rose};
ghost use Rattle.conley_outside.specs.Sink.{gains, GainsPrefix};
ghost use Rattle.conley_input.specs.Problem.{IsSound};
ghost use Rattle.conley_input.specs.ProblemMeaning as read;
ghost use Rattle.conley_tool.specs.Words.{command_of};
ghost use Rattle.conley_tool.specs.CommandMeaning.{meaning_of};
ghost use Rattle.conley_tool.specs.Line.{line_of};
ghost use Rattle.conley_tool.specs.Headline.{IsDueOn, IsDueOf, IsDueFor};
ghost use Rattle.conley_tool.specs.Outcomes.{HasCause, Gains, IsAnswer};
ghost use Rattle.conley_tool.specs.Words as spec;
ghost use Rattle.conley_tool.specs.Words.{number_of};
ghost use Rattle.conley_tool.specs.Ends.{IsNamed, NamedCause, EndCause, due_of};

use crate::Outcome;
use crate::analyze::answer_analyze;
use crate::answer::Answer;
use crate::check::answer_check;
use crate::classes::answer_classes;
use crate::fetch::read_problem;
use crate::field::answer_field;
use crate::morse::answer_morse;
use crate::report::report;
use crate::sets::answer_sets;
use crate::trial::{answer_trial, made_problem};
use crate::words::{Command, Verb, parse_words, reads_file};
use conley_input::Problem;
use conley_outside::{Depot, Sink};
use conley_texts::put_whole;
use std::alloc::Global;

/// What a command answers for a problem, or the outcome that ends the run.
fn answer_on<D: Depot>(
    alloc: Global,
    command: &Command,
    problem: &Problem,
    depot: &mut D,
) -> Result<Answer, Outcome>
    requires sound { IsSound (read.meaning_of problem.now) }
    requires counted { length command.now.arguments.now ≡ length (spec.arguments_of command.now.verb) }
    ensures ok { IfOk result (λ answer. IsDueOn command.now.verb (D.files depot.old) (meaning_of command.now).arguments (read.meaning_of problem.now)
        (due_of answer)) }
    ensures err { IfErr result (EndCause (IsDueOn command.now.verb (D.files depot.old) (meaning_of command.now).arguments (read.meaning_of problem.now))
        (Rose (D.faults depot.old) (D.faults depot.new))) }
    ensures same_files { D.files depot.new ≡ D.files depot.old }
    ensures later { D.faults depot.old ≤ D.faults depot.new }
    ensures unasked { spec.reads_file command.now.verb ≡ false → D.faults depot.new ≡ D.faults depot.old }
{
    match command.verb {
        Verb::Classes => answer_classes(alloc, problem),
        Verb::Field => answer_field(alloc, problem),
        Verb::Morse => answer_morse(alloc, problem),
        Verb::Sets => answer_sets(alloc, problem),
        Verb::Analyze => answer_analyze(alloc, problem),
        Verb::Check => answer_check(alloc, problem, command.arguments[1].as_str(), depot),
        Verb::Trial => answer_trial(alloc, problem),
    }
}

/// The problem that the first argument of a command names, in a file or by a number, or the outcome that ends the run.
fn named_problem<D: Depot>(
    alloc: Global,
    verb: Verb,
    word: &str,
    depot: &mut D,
) -> Result<Problem, Outcome>
    requires { spec.reads_file verb ≡ false → is_some (number_of word.now) ≡ true }
    ensures ok { IfOk result (λ problem. IsNamed (spec.reads_file verb) (D.files depot.old) word.now (read.meaning_of problem)) }
    ensures sound { IfOk result (λ problem. IsSound (read.meaning_of problem)) }
    ensures err { IfErr result (NamedCause (spec.reads_file verb) (D.files depot.old) word.now (Rose (D.faults depot.old) (D.faults depot.new))) }
    ensures same_files { D.files depot.new ≡ D.files depot.old }
    ensures later { D.faults depot.old ≤ D.faults depot.new }
    ensures unasked { spec.reads_file verb ≡ false → D.faults depot.new ≡ D.faults depot.old }
{
    if reads_file(verb) {
        read_problem(alloc, word, depot)
    } else {
        let problem = made_problem(alloc, word)?;
        Ok(problem)
    }
}

/// What a command answers, or the outcome that ends the run.
fn answer<D: Depot>(alloc: Global, command: &Command, depot: &mut D) -> Result<Answer, Outcome>
    requires some { 0 < length command.now.arguments.now }
    requires counted { length command.now.arguments.now ≡ length (spec.arguments_of command.now.verb) }
    requires number { spec.are_arguments_of command.now.verb (meaning_of command.now).arguments ≡ true }
    ensures ok { IfOk result (λ answer. IsDueOf (D.files depot.old) (meaning_of command.now) (due_of answer)) }
    ensures err { IfErr result (EndCause (IsDueOf (D.files depot.old) (meaning_of command.now)) (Rose (D.faults depot.old) (D.faults depot.new))) }
    ensures same_files { D.files depot.new ≡ D.files depot.old }
    ensures unasked { spec.reads_file command.now.verb ≡ false → D.faults depot.new ≡ D.faults depot.old }
{
    let word = command.arguments[0].as_str();
    let problem = named_problem(alloc, command.verb, word, depot)?;
    let answer = answer_on(alloc, command, &problem, depot)?;
    Ok(answer)
}

/// All of a run but the line on `err`. The whole text is made before the first byte is put.
fn outcome_of<D: Depot, O: Sink>(
    alloc: Global,
    words: &[String],
    depot: &mut D,
    out: &mut O,
) -> Outcome
    ensures usage { command_of (map string_bytes words.now) ≡ None → result ≡ Outcome.Usage }
    ensures cause { HasCause (IsDueFor (D.files depot.old) words.now) (Rose (D.faults depot.old) (D.faults depot.new))
        (Rose (O.faults out.old) (O.faults out.new)) result }
    ensures gains { Gains (IsDueFor (D.files depot.old) words.now) (O.written out.old) (O.written out.new) result }
    ensures same_files { D.files depot.new ≡ D.files depot.old }
    ensures unasked { spec.names_file (command_of (map string_bytes words.now)) ≡ false → D.faults depot.new ≡ D.faults depot.old }
{
    let Some(command) = parse_words(words) else {
        return Outcome::Usage;
    };
    let answer = match answer(alloc, &command, depot) {
        Ok(answer) => answer,
        Err(outcome) => return outcome,
    };
    match put_whole(out, answer.text()) {
        Ok(()) => answer.outcome(),
        Err(_) => Outcome::WriteFault,
    }
}

/// Runs the command that the words name: `classes FILE`, which prints the recurrence classes of the problem in FILE,
/// `field FILE`, which prints its parts, each as regular or critical,
/// `morse FILE`, which prints its Morse sets with their Conley indices, and the order of the sets,
/// `sets FILE`, which tells of each named set what stays in it, whether it is isolated, and then its Conley index,
/// `analyze FILE`, which prints an analysis of it as a certificate: the Morse sets with a connection matrix, its maps and homotopies,
/// `check FILE CERT`, which tells whether the certificate in CERT is an analysis of the problem,
/// or `trial K`, which prints the summary of a problem that is made for K and of an analysis of it.
/// Its text goes to `out`, and for any outcome but `Done` and `Accepted` one line to `err`; a fault of `err` changes no outcome.
pub fn run<D: Depot, O: Sink, E: Sink>(
    alloc: Global,
    words: &[String],
    depot: &mut D,
    out: &mut O,
    err: &mut E,
) -> Outcome
    ensures usage { command_of (map string_bytes words.now) ≡ None → result ≡ Outcome.Usage }

    // Each outcome has its cause.
    ensures cause { HasCause (IsDueFor (D.files depot.old) words.now) (Rose (D.faults depot.old) (D.faults depot.new))
        (Rose (O.faults out.old) (O.faults out.new)) result }

    // Where no count rose, the outcome is one that is due, memory apart.
    ensures complete { ¬ (Rose (D.faults depot.old) (D.faults depot.new)) → ¬ (Rose (O.faults out.old) (O.faults out.new)) →
        (result ≡ Outcome.NoMemory) ⊎ IsAnswer (IsDueFor (D.files depot.old) words.now) result }

    // What `out` gained.
    ensures gains { Gains (IsDueFor (D.files depot.old) words.now) (O.written out.old) (O.written out.new) result }

    // What `err` gained: the line, or less of it only where its own count rose.
    ensures line { (E.written err.new ≡ gains (E.written err.old) (line_of result))
        ⊎ (Rose (E.faults err.old) (E.faults err.new) × GainsPrefix (E.written err.old) (line_of result) (E.written err.new)) }

    ensures same_files { D.files depot.new ≡ D.files depot.old }

    // Where the words name no file, nothing of the outside has failed by the depot: no read fault comes then.
    ensures unasked { spec.names_file (command_of (map string_bytes words.now)) ≡ false → D.faults depot.new ≡ D.faults depot.old }
{
    let outcome = outcome_of(alloc, words, depot, out);
    let _ = report(&outcome, err);
    outcome
}

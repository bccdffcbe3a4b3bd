//! The program `conley`: it runs the command that its words name, over the system's files and streams, and ends with the status of the outcome.
#![tactic(auto)]

use conley_outside::{FileDepot, StreamSink};
use conley_tool::{Outcome, run};
use std::env;
use std::io::ErrorKind;
use std::process::ExitCode;
use std::rt::Env;

// The words after the program's name. There are none where one of them isn't UTF-8.
fn words<R: Env + AllocGlobal>(rt: &R) -> Option<Vec<String>> {
    let mut words = Vec::new(rt.alloc());
    match env::args(rt) {
        Ok(args) => {
            for word in args.skip(1) {
                if words.push(word).is_err() {
                    return None;
                }
            }
        }
        Err(error) => {
            if error.kind() == ErrorKind::OutOfMemory {
                return None;
            }
        }
    }
    Some(words)
}

fn main(rt: HostRuntime) -> ExitCode {
    let outcome = match words(&rt) {
        None => Outcome::NoMemory,
        Some(words) => {
            let mut depot = FileDepot::new(&rt);
            let mut out = StreamSink::new(rt.stdout());
            let mut err = StreamSink::new(rt.stderr());
            run(rt.alloc(), &words, &mut depot, &mut out, &mut err)
        }
    };
    ExitCode::from(outcome.status())
}

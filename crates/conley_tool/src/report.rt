//! The line on the error stream.

ghost use Rattle.std.specs.Prelude.{◌≡◌, OnOk, OnErr};
ghost use Rattle.conley_outside.specs.Faults.{HasCause};
ghost use Rattle.conley_outside.specs.Sink.{gains, GainsPrefix};
ghost use Rattle.conley_tool.specs.Line.{line_of};

use crate::Outcome;
use crate::words::USAGE;
use conley_outside::{Failed, Sink};
use conley_texts::{put_told, put_whole};

/// Puts the line of an outcome. It takes no memory.
pub(crate) fn report<E: Sink>(outcome: &Outcome, err: &mut E) -> Result<(), Failed>
    ensures ok { OnOk result (E.written err.new ≡ gains (E.written err.old) (line_of outcome.now)) }
    ensures err { OnErr result (GainsPrefix (E.written err.old) (line_of outcome.now) (E.written err.new)) }
    ensures cause { HasCause (E.faults err.old) (E.faults err.new) result }
{
    match outcome {
        Outcome::Done | Outcome::Accepted => put_whole(err, b""),
        Outcome::Refused(fault) => put_told(err, "refused", &fault.told()),
        Outcome::Rejected(reason) => put_told(err, "rejected", &reason.told()),
        Outcome::Usage => put_whole(err, USAGE.as_bytes()),
        Outcome::ReadFault => put_whole(err, b"read fault\n"),
        Outcome::TooLong => put_whole(err, b"too long\n"),
        Outcome::WriteFault => put_whole(err, b"write fault\n"),
        Outcome::NoMemory => put_whole(err, b"no memory\n"),
    }
}

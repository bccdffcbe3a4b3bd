//! A run over files in memory, and what it says.

ghost use Rattle.std.specs.Prelude.{◌≤◌};

use conley_outside::{MemoryDepot, MemorySink};
use conley_tool::{Outcome, run};
use std::alloc::{AllocError, Global};
use std::process::Abort;

/// A file, and what a command tells of it: on `out` where it is done, on `err` where the file is refused.
pub(crate) type Row = (&'static str, &'static str);

/// The words of a command line.
pub(crate) fn words_of(alloc: Global, texts: &[&str]) -> Result<Vec<String>, AllocError> {
    let mut words = Vec::new(alloc);
    for text in texts {
        words.push(String::from_str(alloc, text)?)?;
    }
    Ok(words)
}

/// What a run answers, with what it put on `out` and on `err`.
#[derive(Drop)]
pub(crate) struct Answer {
    pub(crate) outcome: Outcome,
    pub(crate) out: MemorySink,
    pub(crate) err: MemorySink,
}

impl Answer {
    /// Whether the run ended with this status and these texts.
    pub(crate) fn is(&self, status: u8, text: &str, line: &str) -> bool {
        self.outcome.status() == status
            && self.out.written() == text.as_bytes()
            && self.err.written() == line.as_bytes()
    }

    /// Whether the run was done, with this many lines and nothing on `err`.
    pub(crate) fn has_lines(&self, count: usize) -> bool {
        self.outcome.status() == 0 && self.count(b'\n') == count && self.err.written().is_empty()
    }

    /// How often the byte stands on `out`.
    pub(crate) fn count(&self, byte: u8) -> usize {
        self.out.written().iter().filter(|b| **b == byte).count()
    }
}

/// Runs the words over a depot, with this room on `out` and so many bytes a put.
pub(crate) fn said(
    alloc: Global,
    texts: &[&str],
    depot: &mut MemoryDepot,
    room: usize,
    most: usize,
) -> Result<Answer, AllocError>
    requires { 1 ≤ most }
{
    let words = words_of(alloc, texts)?;
    let mut out = MemorySink::new(alloc, room, most, None)?;
    let mut err = MemorySink::new(alloc, 200, 3, None)?;
    let outcome = run(alloc, &words, depot, &mut out, &mut err);
    Ok(Answer { outcome, out, err })
}

/// The same over one file, under the name `f`.
pub(crate) fn said_of(
    alloc: Global,
    texts: &[&str],
    file: &[u8],
    room: usize,
    most: usize,
) -> Result<Answer, AllocError>
    requires { 1 ≤ most }
{
    let mut depot = MemoryDepot::new(alloc);
    depot.add("f", file)?;
    said(alloc, texts, &mut depot, room, most)
}

/// What a command says of a large file.
pub(crate) fn said_of_large(
    alloc: Global,
    command: &str,
    file: &[u8],
) -> Result<Answer, AllocError> {
    said_of(alloc, &[command, "f"], file, 1_000_000, 1_000_000)
}

/// Runs the words over a depot, with an `out` whose second put fails and an `err` of so many bytes.
pub(crate) fn cut_off(
    alloc: Global,
    texts: &[&str],
    depot: &mut MemoryDepot,
    room: usize,
) -> Result<Answer, AllocError> {
    let words = words_of(alloc, texts)?;
    let mut out = MemorySink::new(alloc, 1000, 10, Some(1))?;
    let mut err = MemorySink::new(alloc, room, 10, None)?;
    let outcome = run(alloc, &words, depot, &mut out, &mut err);
    Ok(Answer { outcome, out, err })
}

/// That a command over each file is done and prints the text.
pub(crate) fn expect_printed<R: Abort>(
    rt: &R,
    alloc: Global,
    command: &str,
    rows: &[Row],
) -> Result<(), AllocError> {
    for (file, text) in rows {
        let said = said_of(alloc, &[command, "f"], file.as_bytes(), 400, 3)?;
        assert!(rt; said.is(0, text, ""), "{file}");
    }
    Ok(())
}

/// That a command refuses each file with the line.
pub(crate) fn expect_refused<R: Abort>(
    rt: &R,
    alloc: Global,
    command: &str,
    rows: &[Row],
) -> Result<(), AllocError> {
    for (file, line) in rows {
        let said = said_of(alloc, &[command, "f"], file.as_bytes(), 200, 3)?;
        assert!(rt; said.is(1, "", line), "{file}");
    }
    Ok(())
}

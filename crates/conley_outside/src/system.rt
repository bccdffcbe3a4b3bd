//! The files and streams of the system. Nothing is told of their bytes.

ghost use Rattle.std.specs.Prelude.{◌≡◌, ◌≢◌, ◌≤◌, None, OnOk, IsErrOf, length};

use crate::{Depot, Failed, FetchError, Sink};
use std::alloc::Global;
use std::fs::File;
use std::io;
use std::io::{ErrorKind, Read, Write};
use std::rt::Files;

/// A depot that reads files of the system, by their paths. Each error of the system is a fault, but want of memory.
#[derive(Drop)]
pub struct FileDepot<'a, R: Files> {
    rt: &'a R,
    faults: u64,
}

impl<'a, R: Files> FileDepot<'a, R> {
    /// A depot without faults. It takes no memory.
    pub fn new(rt: &'a R) -> FileDepot<'a, R>
        ensures { ⟦<FileDepot<'a, R> as Depot>⟧.faults result ≡ 0 }
    {
        FileDepot { rt, faults: 0 }
    }
}

impl<'a, R: Files> Depot for FileDepot<'a, R> {
    ghost files = { λ _. None };

    ghost faults = { λ depot. depot.faults };

    fn fetch(
        &mut self,
        _alloc: Global,
        name: &str,
        limit: usize,
        into: &mut Vec<u8>,
    ) -> Result<(), FetchError> {
        let read = match File::open(self.rt, name) {
            Ok(mut file) => read_up_to(&mut file, limit, into),
            Err(error) => Err(refusal(&error)),
        };
        if read == Err(FetchError::Failed) {
            self.faults = self.faults.saturating_add(1);
        }
        read
    }
}

// What an error of the system is answered with.
fn refusal(error: &io::Error) -> FetchError
    ensures { result ≢ FetchError.TooLong }
{
    if error.kind() == ErrorKind::OutOfMemory {
        FetchError::NoMemory
    } else {
        FetchError::Failed
    }
}

const CHUNK: usize = 65536;

// Reads to the end, if that comes after at most `limit` bytes. One byte more shows that it doesn't.
fn read_up_to<F: Read>(file: &mut F, limit: usize, into: &mut Vec<u8>) -> Result<(), FetchError>
    requires { length into.old.items ≤ limit }
    ensures within { OnOk result (length into.new.items ≤ limit) }
    ensures too_long { IsErrOf result FetchError.TooLong → length into.new.items ≡ limit }
{
    let mut chunk = [0u8; CHUNK];
    while into.len() < limit {
        let most = CHUNK.min(limit - into.len());
        let count = match file.read(&mut chunk[..most]) {
            Ok(count) => count,
            Err(error) => return Err(refusal(&error)),
        };
        if count == 0 {
            return Ok(());
        }
        if into.extend_from_slice(&chunk[..count]).is_err() {
            return Err(FetchError::NoMemory);
        }
    }
    match file.read(&mut chunk[..1]) {
        Ok(0) => Ok(()),
        Ok(_) => Err(FetchError::TooLong),
        Err(error) => Err(refusal(&error)),
    }
}

/// A sink that writes to standard output or standard error. Each error of the stream is a fault, and so is a write of nothing.
#[derive(Drop)]
pub struct StreamSink<W: Write + Drop> {
    to: W,
    faults: u64,
}

impl<W: Write + Drop> StreamSink<W> {
    /// A sink without faults. It takes no memory.
    pub fn new(to: W) -> StreamSink<W>
        ensures { ⟦<StreamSink<W> as Sink>⟧.faults result ≡ 0 }
    {
        StreamSink { to, faults: 0 }
    }
}

impl<W: Write + Drop> Sink for StreamSink<W> {
    ghost written = { λ _. None };

    ghost faults = { λ sink. sink.faults };

    fn put(&mut self, piece: &[u8]) -> Result<usize, Failed> {
        if piece.is_empty() {
            return Ok(0);
        }
        match self.to.write(piece) {
            Ok(count) if count > 0 => Ok(count),
            _ => {
                self.faults = self.faults.saturating_add(1);
                Err(Failed)
            }
        }
    }
}

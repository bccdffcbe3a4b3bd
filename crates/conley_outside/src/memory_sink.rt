//! A sink in memory.

ghost use Rattle.std.specs.Prelude.{◌≡◌, ◌-◌, ◌<◌, ◌≤◌, ◌↔◌, ◌++◌, [], length, take, min, Some, IfOk, IsErr, IsTrue, ◌==◌, ◌&&◌, not, if◌then◌else◌};

use crate::{Failed, NoMemory, Sink};
use std::alloc::Global;
use std::marker::Model;

/// Bytes that stand in memory, up to a room. It tells them, and can be told to fail once.
#[derive(Drop)]
pub struct MemorySink {
    bytes: Vec<u8>,
    room: usize,
    most: usize,
    next: Option<u64>,
    fail_at: Option<u64>,
    faults: u64,
}

impl Model for MemorySink {
    ghost use Rattle.std.specs.Prelude.{◌≤◌, vec_len, vec_capacity};
    ghost use Rattle.conley_outside.specs.MemorySink.{Page};

    ghost Value = { Page };

    ghost view = { λ sink. record {
      bytes = sink.bytes.items;
      room = sink.room;
      most = sink.most;
      next = sink.next;
      fail_at = sink.fail_at;
      faults =
          sink.faults;
    } };

    ghost invariant = { λ sink. (vec_len sink.bytes ≤ sink.room) × (sink.room ≤ vec_capacity sink.bytes) × (1 ≤ sink.most) };
}

impl MemorySink {
    ghost use Rattle.conley_outside.specs.MemorySink.{Page};

    /// A sink without bytes, with room for `room` bytes, of which a put takes at most `most`.
    /// The put with the number `fail_at` is told to fail, counted from 0 over all puts.
    pub fn new(
        alloc: Global,
        room: usize,
        most: usize,
        fail_at: Option<u64>,
    ) -> Result<MemorySink, NoMemory>
        requires { 1 ≤ most }
        ensures { IfOk result (λ sink. sink ≡ record { bytes = []; room = room; most = most; next = Some 0; fail_at = fail_at; faults = 0 }) }
    {
        Ok(MemorySink {
            bytes: Vec::with_capacity(alloc, room)?,
            room,
            most,
            next: Some(0),
            fail_at,
            faults: 0,
        })
    }

    /// All bytes that were put into it. It takes no memory.
    pub fn written(&self) -> &[u8]
        ensures { result.now ≡ self.now.bytes }
    {
        &self.bytes
    }
}

impl Sink for MemorySink {
    ghost use Rattle.conley_outside.specs.Calls.{next_call};
    ghost use Rattle.conley_outside.specs.Faults.{HasCause, one_more};
    ghost use Rattle.conley_outside.specs.Sink.{gains, count_written};
    ghost use Rattle.conley_outside.specs.MemorySink.{is_failing};

    ghost written = { λ page. Some page.bytes };

    ghost faults = { λ page. page.faults };

    /// A piece that isn't empty fails exactly where this put is told to fail or no room is left.
    /// Else as many bytes are taken as the piece, `most` and the room that is left allow.
    fn put(&mut self, piece: &[u8]) -> Result<usize, Failed>
        ensures within { IfOk result (λ n. n ≤ length piece.now) }
        ensures some { IfOk result (λ n. 0 < length piece.now → 0 < n) }
        ensures cause { HasCause self.old.faults self.new.faults result }

        ensures ok { IfOk result (λ n. n ≡ min (length piece.now) (min self.old.most (self.old.room - length self.old.bytes))) }
        ensures err { IsErr result ↔ ((0 < length piece.now) × IsTrue (is_failing self.old)) }
        ensures after { self.new ≡ record self.old {
          bytes = self.old.bytes ++ take (count_written result) piece.now;
          next = next_call self.old.next;
          faults = if not (length piece.now == 0) && is_failing self.old then one_more self.old.faults else self.old.faults;
        } }
    {
        let fails = self.next.is_some() && self.next == self.fail_at;
        self.next = match self.next {
            Some(call) => call.checked_add(1),
            None => None,
        };
        if piece.is_empty() {
            return Ok(0);
        }
        let left = self.room - self.bytes.len();
        if fails || left == 0 {
            self.faults = self.faults.saturating_add(1);
            return Err(Failed);
        }
        let count = piece.len().min(self.most).min(left);
        self.bytes.extend_from_slice(&piece[..count]).unwrap();
        Ok(count)
    }
}

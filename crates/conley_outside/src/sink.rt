//! Where bytes are put.

ghost use Rattle.std.specs.Prelude.{◌≡◌, ◌<◌, ◌≤◌, [], List, ℕ, length, take, Ok, IfOk};
ghost use Rattle.conley_outside.specs.Faults.{HasCause};
ghost use Rattle.conley_outside.specs.Sink.{Written, gains, count_written};

/// A fault of the outside, which took nothing of a piece.
#[derive(Clone, Copy, Debug, PartialEq, Eq)]
pub struct Failed;

/// What takes bytes, piece by piece: a stream of this system, or a list in memory.
pub trait Sink {
    /// What the sink tells of the bytes that were put into it.
    ghost written: { Self → Written };

    /// How often the outside has failed.
    ghost faults: { Self → ℕ };

    /// Writes a prefix of a piece and gives its length in bytes, which is 0 only for an empty piece.
    /// `Failed` is a fault, and nothing was written then. It takes no memory.
    fn put(&mut self, piece: &[u8]) -> Result<usize, Failed>
        ensures bytes { written self.new ≡ gains (written self.old) (take (count_written result) piece.now) }
        ensures within { IfOk result (λ n. n ≤ length piece.now) }
        ensures some { IfOk result (λ n. 0 < length piece.now → 0 < n) }
        ensures empty { length piece.now ≡ 0 → (result ≡ Ok 0) × (faults self.new ≡ faults self.old) }
        ensures cause { HasCause (faults self.old) (faults self.new) result };
}

//! What a rejection tells.

ghost use Rattle.std.specs.Prelude.{◌≡◌};

use conley_first::Told;

/// The law that fails first, its part, its first place, and the two values there.
#[derive(Clone, Copy, Debug, PartialEq, Eq)]
pub struct Reason {
    /// 1 to 15.
    pub law: u8,
    /// Which of the matrices breaks J6, from 1 on; 0 for every other law.
    pub part: u8,
    /// A cell, a set or a generator, by the law.
    pub row: u32,
    /// A cell, a set, a generator or a dimension, by the law.
    pub column: u32,
    /// What stands there.
    pub have: u64,
    /// What would have to stand there; for J3 the bound that `have` isn't below.
    pub want: u64,
}

impl Reason {
    ghost use Rattle.conley_first.specs.Told.{words_of};
    ghost use Rattle.conley_certificate.specs.Told.{words_of_reason};

    /// How the rejection is told: J1 to J15, then part, row, column, and the two values. No memory.
    pub fn told(&self) -> Told
        ensures { words_of result ≡ words_of_reason self.now }
    {
        let kept = [
            self.part as u64,
            self.row as u64,
            self.column as u64,
            self.have,
            self.want,
        ];
        Told::new(b'J', self.law, &kept)
    }
}

//! Faults as they are told.

ghost use Rattle.std.specs.Prelude.{◌≡◌, ◌∷◌, ◌≤◌, length, map, decimal};

/// A fault as it is told: its name, such as `E13`, and at most five numbers that it keeps.
#[derive(Clone, Copy)]
pub struct Told {
    /// The letter of its name, as `b'E'`.
    pub letter: u8,
    /// The number of its name, as 13.
    pub number: u8,
    numbers: [u64; 5],
    count: usize,
    ghost few: { count ≤ 5 },
}

impl Told {
    ghost use Rattle.conley_first.specs.Told.{kept, words_of};

    /// The fault whose name is a letter and a number, with the numbers that it keeps. No memory.
    pub fn new(letter: u8, number: u8, numbers: &[u64]) -> Told
        requires { length numbers.now ≤ 5 }
        ensures { words_of result ≡ (letter ∷ decimal number) ∷ map decimal numbers.now }
    {
        let mut all = [0; 5];
        for (k, kept) in numbers.iter().enumerate() {
            all[k] = *kept;
        }
        let count = numbers.len();
        Told {
            letter,
            number,
            numbers: all,
            count,
        }
    }

    /// The numbers that it keeps, in order. No memory.
    pub fn kept(&self) -> &[u64]
        ensures { result.now ≡ kept self.now }
    {
        &self.numbers[..self.count]
    }
}

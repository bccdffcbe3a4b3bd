//! Rows of bits: bit b is bit b mod 64, counted from the least significant one, of word b / 64.

ghost use Rattle.std.specs.Prelude.{◌≡◌, ◌⊎◌, ◌*◌, ◌<◌, ◌≤◌, ◌↔◌, ℕ, IsTrue, length};
ghost use Rattle.conley_order.specs.ClassRows.{word_bit};
ghost use Rattle.conley_order.specs.LowerRows.{JoinsRow};

/// Whether the bit is set. It takes no memory.
pub fn has_bit(words: &[u64], b: usize) -> bool
    requires { b < 64 * length words.now }
    ensures { IsTrue result ↔ (word_bit words.now b ≡ 1) }
{
    (words[b / 64] >> (b % 64)) & 1 == 1
}

/// Sets the bit. It takes no memory.
pub fn set_bit(words: &mut [u64], b: usize)
    requires { b < 64 * length words.old }
    ensures set { word_bit words.new b ≡ 1 }
    ensures kept { (k : ℕ) → (k ≡ b) ⊎ (word_bit words.new k ≡ word_bit words.old k) }
{
    words[b / 64] |= 1 << (b % 64);
}

/// Sets each bit that stands in the other row, as far as there are words for it. It takes no memory.
pub fn join_row(words: &mut [u64], row: &[u64])
    requires { length words.old ≤ length row.now }
    ensures { JoinsRow words.old words.new row.now }
{
    for k in 0..words.len() {
        words[k] |= row[k];
    }
}

//! Rows of marks as rows of bits.

ghost use Rattle.std.specs.Prelude.{◌≡◌, ◌<◌, ◌≤◌, ◌*◌, ◌^◌, ◌↔◌, ℕ, IfOk, length, vec_len};
ghost use Rattle.conley_lists.specs.Lists.{IsMarked};
ghost use Rattle.conley_order.specs.ClassRows.{word_bit};

use std::alloc::{AllocError, Global};

/// Words whose bits are the marks: bit b mod 64, counted from the least significant one, of word b / 64 is mark b.
pub fn words_of(alloc: Global, marks: &[bool]) -> Result<Vec<u64>, AllocError>
    requires { length marks.now < 2 ^ 32 }
    ensures width { IfOk result (λ words. length marks.now ≤ 64 * vec_len words) }
    ensures bits { IfOk result (λ words. (b : ℕ) → (word_bit words.items b ≡ 1) ↔ IsMarked marks.now b) }
{
    let mut words = vec![in alloc; 0u64; marks.len() / 64 + 1]?;
    for (b, mark) in marks.iter().enumerate() {
        if *mark {
            words[b / 64] |= 1 << (b % 64);
        }
    }
    Ok(words)
}

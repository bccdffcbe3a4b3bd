//! Chains as rows of codes, one for each place.

ghost use Rattle.std.specs.Prelude.{◌≡◌, ◌≤◌, ◌<◌, ◌^◌, ℕ, All, IfOk, length, slice_index};
ghost use Rattle.conley_field.specs.Arithmetic.{Arithmetic};
ghost use Rattle.conley_chains.specs.Chain.{coefficient, IsChain, HasCodes};

use crate::chain::times;
use crate::{Chain, NoMemory};
use conley_field::{Field, Scalar};
use std::alloc::Global;

impl Chain {
    /// The chain that keeps the codes of a row, each at its place there. Zero isn't kept.
    pub fn from_row(alloc: Global, row: &[Scalar]) -> Result<Chain, NoMemory>
        requires few { length row.now ≤ 2 ^ 32 }
        ensures chain { IfOk result IsChain }
        ensures places { IfOk result (λ chain. (place : ℕ) → coefficient chain place ≡ slice_index row.now place) }
        ensures codes { IfOk result (λ chain. (n : ℕ) → All (λ a. a < n) row.now → All (λ e. e.1 < n) chain) }
    {
        let mut chain = Chain::new(alloc);
        for i in 0..row.len() {
            chain.put(i as u32, row[i])?;
        }
        chain.entries();
        Ok(chain)
    }

    /// Adds `by` times the chain to a row of codes. It takes no memory.
    pub fn add_to<F: Field>(&self, field: &F, by: Scalar, row: &mut [Scalar])
        requires by_below { by < (F.arithmetic field.now).order }
        requires codes { HasCodes (F.arithmetic field.now) self.now }
        requires within { (place : ℕ) → length row.old ≤ place → coefficient self.now place ≡ 0 }
        requires row_codes { All (λ a. a < (F.arithmetic field.now).order) row.old }
        ensures sum { (place : ℕ) → slice_index row.new place ≡ (F.arithmetic field.now).add (slice_index row.old place)
            ((F.arithmetic field.now).mul by (coefficient self.now place)) }
        ensures row_codes { All (λ a. a < (F.arithmetic field.now).order) row.new }
    {
        for e in self.entries() {
            let place = e.0 as usize;
            let old = row[place];
            row[place] = field.add(old, times(field, by, e.1));
        }
    }
}

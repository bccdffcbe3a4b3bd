//! The first entry of a matrix that a test refuses.

ghost use Rattle.std.specs.Prelude.{◌≡◌, ◌≢◌, ◌<◌, ◌≤◌, ◌^◌, ℕ, Bool, true, IsNone, IfSome};
ghost use Rattle.conley_chains.specs.Chain.{coefficient};
ghost use Rattle.conley_chains.specs.Matrix.{entry, column_count};
ghost use Rattle.conley_certificate.specs.Places.{first_place, entry_law};
ghost use Rattle.conley_checker.specs.Refusal.{IsFirstRefused};

use conley_certificate::Reason;
use conley_chains::{Chain, Matrix};
use conley_field::Scalar;

/// A test of the places of a matrix.
pub(crate) trait EntryTest {
    /// How many rows and columns there are.
    ghost rows: { Self → ℕ };

    ghost columns: { Self → ℕ };

    /// Whether an entry may stand in this row and column.
    ghost test: { Self → ℕ → ℕ → Bool };

    fn passes(&self, row: u32, column: u32) -> bool
        requires row_within { row < rows self.now }
        requires column_within { column < columns self.now }
        ensures { result ≡ test self.now row column };
}

/// The first entry of a column that the test refuses.
fn first_refused<T: EntryTest>(chain: &Chain, column: u32, test: &T) -> Option<(u32, Scalar)>
    requires beyond { (row : ℕ) → T.rows test.now ≤ row → coefficient chain.now row ≡ 0 }
    requires column { column < T.columns test.now }
    ensures passed { IsNone result → (row : ℕ) → coefficient chain.now row ≢ 0 → T.test test.now row column ≡ true }
    ensures refused { IfSome result (λ e. IsFirstRefused (T.test test.now) chain.now column e.0 e.1) }
{
    let entries = chain.entries();
    for i in 0..entries.len() {
        let e = entries[i];
        if !test.passes(e.0, column) {
            return Some(e);
        }
    }
    None
}

/// The reason at the first entry, by columns, then rows, that the test refuses.
pub(crate) fn refuse<T: EntryTest>(law: u8, part: u8, matrix: &Matrix, test: &T) -> Option<Reason>
    requires rows { matrix.now.rows ≡ T.rows test.now }
    requires columns { column_count matrix.now ≡ T.columns test.now }
    requires few { column_count matrix.now < 2 ^ 32 }
    ensures { result ≡ first_place (entry_law law part matrix.now.rows (column_count matrix.now) (entry matrix.now) (T.test test.now)) }
{
    for column in 0..matrix.columns() {
        let here = column as u32;
        if let Some(e) = first_refused(matrix.column(here), here, test) {
            return Some(Reason {
                law,
                part,
                row: e.0,
                column: here,
                have: e.1.code() as u64,
                want: 0,
            });
        }
    }
    None
}

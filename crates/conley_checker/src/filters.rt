//! The tests of entries: by dimension, and by reach.

ghost use Rattle.std.specs.Prelude.{◌≡◌, ◌<◌, All, ℕ, Bool, length, slice_index, not, ◌&&◌, ◌==◌};
ghost use Rattle.conley_checker.specs.Filters.{joins};

use crate::entry_test::EntryTest;
use conley_order::Grading;

/// How the dimension of a row differs from that of its column.
#[derive(Clone, Copy)]
pub(crate) enum Degree {
    Down,
    Level,
    Up,
}

/// Entries join dimensions of this degree.
#[derive(Drop)]
pub(crate) struct Degrees<'a> {
    pub rows: &'a [u8],
    pub columns: &'a [u8],
    pub degree: Degree,
}

impl<'a> EntryTest for Degrees<'a> {
    ghost rows = { λ t. length t.rows.now };

    ghost columns = { λ t. length t.columns.now };

    ghost test = { λ t row column. joins t.degree (slice_index t.rows.now row) (slice_index t.columns.now column) };

    fn passes(&self, row: u32, column: u32) -> bool {
        let row_dim = self.rows[row as usize] as u16;
        let column_dim = self.columns[column as usize] as u16;
        match self.degree {
            Degree::Down => column_dim == row_dim + 1,
            Degree::Level => row_dim == column_dim,
            Degree::Up => row_dim == column_dim + 1,
        }
    }
}

/// Entries lead from a column's cell to a row's cell that it reaches.
#[derive(Drop)]
pub(crate) struct Filter<'a, G: Grading> {
    pub reach: &'a G,
    pub rows: &'a [u32],
    pub columns: &'a [u32],
    ghost rows_within: { All (λ x. x < G.cell_count reach.now) rows.now },
    ghost columns_within: { All (λ x. x < G.cell_count reach.now) columns.now },
}

impl<'a, G: Grading> EntryTest for Filter<'a, G> {
    ghost rows = { λ t. length t.rows.now };

    ghost columns = { λ t. length t.columns.now };

    ghost test = { λ t row column. G.is_below t.reach.now (slice_index t.rows.now row) (slice_index t.columns.now column) };

    fn passes(&self, row: u32, column: u32) -> bool {
        self.reach
            .below(self.rows[row as usize], self.columns[column as usize])
    }
}

/// The same between generators of different sets.
#[derive(Drop)]
pub(crate) struct Strictness<'a, G: Grading> {
    pub reach: &'a G,
    pub sets: &'a [u32],
    pub bases: &'a [u32],
    ghost sets_count: { length sets.now ≡ length bases.now },
    ghost bases_within: { All (λ x. x < G.cell_count reach.now) bases.now },
}

impl<'a, G: Grading> EntryTest for Strictness<'a, G> {
    ghost rows = { λ t. length t.bases.now };

    ghost columns = { λ t. length t.bases.now };

    ghost test = { λ t row column. not (slice_index t.sets.now row == slice_index t.sets.now column) && G.is_below t.reach.now (slice_index t.bases.now row)
        (slice_index t.bases.now column) };

    fn passes(&self, row: u32, column: u32) -> bool {
        self.sets[row as usize] != self.sets[column as usize]
            && self
                .reach
                .below(self.bases[row as usize], self.bases[column as usize])
    }
}

//! Reach between classes of cells, a row of bits for each class.

ghost use Rattle.std.specs.Prelude.{◌≡◌, ◌<◌, length, slice_index};
ghost use Rattle.conley_lists.specs.Lists.{items_of};
ghost use Rattle.conley_order.specs.ClassRows.{ClassRows, AreClassRows, is_at_or_below};

use crate::Grading;
use std::marker::Model;

/// A preorder of cells by their classes: bit b of row c says that class b is at or below class c.
#[derive(Drop)]
pub struct ReachRows {
    class_of: Vec<u32>,
    rows: Vec<Vec<u64>>,
}

impl Model for ReachRows {
    ghost use Rattle.conley_lists.specs.Lists.{items_of};
    ghost use Rattle.conley_order.specs.ClassRows.{ClassRows, AreClassRows};

    ghost Value = { ClassRows };

    ghost view = { λ r. record { class_of = r.class_of.items; rows = items_of r.rows.items } };

    ghost invariant = { λ r. AreClassRows (record { class_of = r.class_of.items; rows = items_of r.rows.items }) };
}

impl ReachRows {
    /// The preorder with this class for each cell and this row for each class. Bit b of a row is bit b mod 64, counted from the
    /// least significant one, of its word b / 64. It takes no memory.
    pub fn from_rows(class_of: Vec<u32>, rows: Vec<Vec<u64>>) -> ReachRows
        requires { AreClassRows (record { class_of = class_of.items; rows = items_of rows.items }) }
        ensures { result ≡ record { class_of = class_of.items; rows = items_of rows.items } }
    {
        ReachRows { class_of, rows }
    }

    /// The class of each cell. It takes no memory.
    pub fn classes(&self) -> &[u32]
        ensures { result.now ≡ self.now.class_of }
    {
        &self.class_of
    }

    /// The class of a cell. It takes no memory.
    pub fn class_of(&self, cell: u32) -> u32
        requires { cell < length self.now.class_of }
        ensures class { result ≡ slice_index self.now.class_of cell }
        ensures bound { result < length self.now.rows }
    {
        self.class_of[cell as usize]
    }
}

/// A cell is at or below another where the bit of its class stands in the row of the other's class.
impl Grading for ReachRows {
    ghost cell_count = { λ r. length r.class_of };

    ghost is_below = { is_at_or_below };

    fn cells(&self) -> usize {
        self.class_of.len()
    }

    fn below(&self, a: u32, b: u32) -> bool {
        let class = self.class_of(a);
        let row = &self.rows[self.class_of(b) as usize];
        (row[(class / 64) as usize] >> (class % 64)) & 1 == 1
    }
}

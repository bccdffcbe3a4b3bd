//! Preorders of cells.

ghost use Rattle.std.specs.Prelude.{◌≡◌, ◌<◌, ◌↔◌, ℕ, Bool, true, IsTrue};
ghost use Rattle.conley_order.specs.Preorder.{IsPreorder};

/// A preorder of the cells, which are the numbers below a count.
pub trait Grading {
    /// How many cells there are.
    ghost cell_count: { Self → ℕ };

    /// Whether the first cell is at or below the second.
    ghost is_below: { Self → ℕ → ℕ → Bool };

    /// How many cells there are. It takes no memory.
    fn cells(&self) -> usize
        ensures count { result ≡ cell_count self.now }
        ensures order { IsPreorder (cell_count self.now) (is_below self.now) };

    /// Whether cell a is at or below cell b. It takes no memory.
    fn below(&self, a: u32, b: u32) -> bool
        requires first { a < cell_count self.now }
        requires second { b < cell_count self.now }
        ensures { result ≡ is_below self.now a b };
}

/// Whether two cells have one grade: each is at or below the other. It takes no memory.
pub fn same<G: Grading>(grading: &G, a: u32, b: u32) -> bool
    requires first { a < G.cell_count grading.now }
    requires second { b < G.cell_count grading.now }
    ensures { IsTrue result ↔ ((G.is_below grading.now a b ≡ true) × (G.is_below grading.now b a ≡ true)) }
{
    grading.below(a, b) && grading.below(b, a)
}

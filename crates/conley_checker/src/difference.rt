//! The first place where two chains differ.

ghost use Rattle.std.specs.Prelude.{◌≡◌, ℕ, IsNone, IfSome};
ghost use Rattle.conley_chains.specs.Chain.{coefficient};
ghost use Rattle.conley_checker.specs.Difference.{IsFirstDifference};

use conley_chains::Chain;

/// The first place where two chains differ, with the codes of both.
pub(crate) fn first_difference(left: &Chain, right: &Chain) -> Option<(u32, u8, u8)>
    ensures same { IsNone result → (place : ℕ) → coefficient left.now place ≡ coefficient right.now place }
    ensures first { IfSome result (λ d. IsFirstDifference left.now right.now d.0 d.1 d.2) }
{
    let a = left.entries();
    let b = right.entries();
    for i in 0..a.len() {
        let e = a[i];
        if b.len() <= i {
            return Some((e.0, e.1.code(), 0));
        }
        let f = b[i];
        if e.0 < f.0 {
            return Some((e.0, e.1.code(), 0));
        }
        if f.0 < e.0 {
            return Some((f.0, 0, f.1.code()));
        }
        if e.1.code() != f.1.code() {
            return Some((e.0, e.1.code(), f.1.code()));
        }
    }
    if a.len() < b.len() {
        let f = b[a.len()];
        return Some((f.0, 0, f.1.code()));
    }
    None
}

//! Numbers and lists of what is left.

ghost use Rattle.std.specs.Prelude.{◌≡◌, ◌<◌, ◌≤◌, ◌^◌, ◌↔◌, ℕ, All, Contains, IfOk, length, slice_index_or};
ghost use Rattle.std.specs.List.Sorted.{IsStrictlyIncreasing};
ghost use Rattle.conley_reduction.specs.Work.{ListsLeft, ArePicked};

use conley_chains::NoMemory;
use conley_field::Field;
use conley_graded::GradedComplex;
use conley_order::Grading;
use std::alloc::Global;

/// The numbers that are left, ascending.
pub(crate) fn numbers_left(alloc: Global, left: &[bool]) -> Result<Vec<u32>, NoMemory>
    requires { length left.now < 2 ^ 32 }
    ensures { IfOk result (λ kept. ListsLeft left.now kept.items) }
{
    let mut kept = Vec::new(alloc);
    for x in 0..left.len() {
        if left[x] {
            kept.push(x as u32)?;
        }
    }
    Ok(kept)
}

/// The base cells of the listed generators.
pub(crate) fn bases_of<'g, F: Field, G: Grading>(
    alloc: Global,
    graded: &GradedComplex<'g, F, G>,
    kept: &[u32],
) -> Result<Vec<u32>, NoMemory>
    requires { All (λ x. x < length graded.now.base) kept.now }
    ensures { IfOk result (λ base. ArePicked graded.now.base kept.now base.items) }
{
    let mut base = Vec::new(alloc);
    for x in kept {
        base.push(graded.base(*x))?;
    }
    Ok(base)
}

/// The dimensions of the listed generators.
pub(crate) fn dims_of<'g, F: Field, G: Grading>(
    alloc: Global,
    graded: &GradedComplex<'g, F, G>,
    kept: &[u32],
) -> Result<Vec<u8>, NoMemory>
    requires { All (λ x. x < length graded.now.base) kept.now }
    ensures { IfOk result (λ dims. ArePicked graded.now.dims kept.now dims.items) }
{
    let mut dims = Vec::new(alloc);
    for x in kept {
        dims.push(graded.dim(*x))?;
    }
    Ok(dims)
}

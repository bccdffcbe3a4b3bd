//! The complex of unit squares.

ghost use Rattle.std.specs.Prelude.{◌≡◌, ◌<◌, ◌≤◌, ◌++◌, OnOk, IfOk, map, pos};
ghost use Rattle.std.specs.List.{flat_map, range_with_len};
ghost use Rattle.conley_lists.specs.Lists.{items_of};
ghost use Rattle.conley_field.specs.AnyField.{arithmetic_of};
ghost use Rattle.conley_field.specs.Prime.{residues};
ghost use Rattle.conley_cubical.specs.Cubical.{IsCubicalComplex};
ghost use Rattle.conley_trial.specs.Squares as spec;

use crate::NoMemory;
use conley_cubical::{CubicalError, cubical};
use conley_field::AnyField;
use conley_lefschetz::Complex;
use std::alloc::{AllocError, Global};

/// The field of two elements.
fn two() -> AnyField
    ensures { arithmetic_of result ≡ residues 2 }
{
    match AnyField::of(2) {
        Some(field) => field,
        None => unreachable!(),
    }
}

/// The pair (n, n + 1).
fn unit_pair(n: u32) -> (i32, i32)
    requires { n < 60 }
    ensures { result ≡ spec.unit_pair n }
{
    let low = n as i32;
    (low, low + 1)
}

/// Puts the squares over the unit interval from i.
fn put_column(
    alloc: Global,
    squares: &mut Vec<Vec<(i32, i32)>>,
    i: u32,
    k: u32,
) -> Result<(), NoMemory>
    requires few { k ≤ 60 }
    requires within { i < k }
    ensures { OnOk result (items_of squares.new.items ≡ items_of squares.old.items ++ map (spec.unit_square i) (range_with_len 0 k)) }
{
    for j in 0..k {
        squares.push(vec![in alloc; unit_pair(i), unit_pair(j)]?)?;
    }
    Ok(())
}

/// The unit squares with corners from 0 to k.
fn unit_squares(alloc: Global, k: u32) -> Result<Vec<Vec<(i32, i32)>>, NoMemory>
    requires { k ≤ 60 }
    ensures { IfOk result (λ squares. items_of squares.items ≡ spec.unit_squares k) }
{
    let mut squares = Vec::new(alloc);
    for i in 0..k {
        put_column(alloc, &mut squares, i, k)?;
    }
    Ok(squares)
}

/// The complex of the unit squares. Nothing but memory can be wanting.
pub(crate) fn squares_complex(alloc: Global, k: u32) -> Result<Complex<AnyField>, NoMemory>
    requires { k ≤ 60 }
    ensures field { IfOk result (λ c. arithmetic_of c.0 ≡ residues 2) }
    ensures complex { IfOk result (λ c. IsCubicalComplex (residues 2) (spec.unit_squares k) c.1) }
{
    let squares = unit_squares(alloc, k)?;
    match cubical(alloc, two(), 2, &squares, 20_000) {
        Ok(complex) => Ok(complex),
        Err(error) => {
            let wants_memory = matches!(&error, CubicalError::NoMemory);
            prove!(wants_memory);
            Err(AllocError)
        }
    }
}

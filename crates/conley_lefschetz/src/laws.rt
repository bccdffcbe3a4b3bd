//! Laws of complexes and of listings.

ghost use Rattle.conley_field.specs.Arithmetic.{Arithmetic};
ghost use Rattle.conley_lefschetz.specs.Fault.{FirstFaultIsOne};
ghost use Rattle.conley_lefschetz.specs.Complex.{ComplexIsOne};
ghost use Rattle.conley_lefschetz.specs.Conley.{NumbersAreOne, RegularWhereZero};

use crate::Complex;
use conley_field::Field;

/// At most one fault of a listing is the first: its number and its place tell the rest of it.
pub fn first_fault_is_one()
    ensures { (F : Arithmetic) → FirstFaultIsOne F }
{}

/// At most one complex is that of a listing: its labels, dimensions and incidences tell the rest of it.
pub fn complex_of_listing_is_one()
    ensures { (F : Arithmetic) → ComplexIsOne F }
{}

/// The Conley numbers of a set are one list, and any two lists of cycles that show a number have its length.
pub fn conley_numbers_are_one<F: Field>(complex: &Complex<F>)
    ensures { NumbersAreOne (F.arithmetic complex.now.0) complex.now.1 }
{}

/// A set is regular exactly where all its Conley numbers are 0.
pub fn regular_sets_have_zeros<F: Field>(complex: &Complex<F>)
    ensures { RegularWhereZero (F.arithmetic complex.now.0) complex.now.1 }
{
    complex.field();
}

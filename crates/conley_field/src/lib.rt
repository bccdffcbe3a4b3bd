//! Finite fields of small order: scalars by their codes, and arithmetic on them.
//! A contract sees a `Scalar` as its code, a number; zero has code 0 and one has code 1. It sees a field by its ghost member `arithmetic`:
//! the order, and the operations on codes. The law `is_field` asks of each implementation that these are a field.
//! `PrimeField` and `AnyField` are the fields of the table; a crate above can bring fields of its own.
//! Open specs/Arithmetic.antt first.
#![tactic(auto)]

mod any;
mod field;
mod prime;
mod scalar;

pub use any::AnyField;
pub use field::Field;
pub use prime::PrimeField;
pub use scalar::Scalar;

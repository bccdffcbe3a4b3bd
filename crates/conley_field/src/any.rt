ghost use Rattle.std.specs.Prelude.{◌≡◌, ◌≢◌, ◌<◌, ◌↔◌, IsSome, IfSome, IsTrue};
ghost use Rattle.conley_field.specs.Prime.{is_prime_order};
ghost use Rattle.conley_field.specs.AnyField.{arithmetic_of, arithmetic_of-IsField};

use crate::{Field, PrimeField, Scalar};

/// Any field of the table: its calls are those of the field that it holds.
#[derive(Clone, Copy, PartialEq, Eq)]
pub enum AnyField {
    Prime(PrimeField),
}

impl AnyField {
    /// The field of this order, or `None` where the table has no such order.
    pub fn of(order: u32) -> Option<AnyField>
        ensures listed { IsSome result ↔ IsTrue (is_prime_order order) }
        ensures order { IfSome result (λ f. (arithmetic_of f).order ≡ order) }
    {
        match PrimeField::of(order) {
            Some(field) => Some(AnyField::Prime(field)),
            None => None,
        }
    }
}

impl Field for AnyField {
    ghost arithmetic = { arithmetic_of };

    ghost is_field = { arithmetic_of-IsField };

    fn order(&self) -> u8 {
        match self {
            AnyField::Prime(field) => field.order(),
        }
    }

    fn zero(&self) -> Scalar {
        Scalar::of(0)
    }

    fn one(&self) -> Scalar {
        Scalar::of(1)
    }

    fn from_code(&self, code: u8) -> Option<Scalar> {
        match self {
            AnyField::Prime(field) => field.from_code(code),
        }
    }

    fn from_int(&self, n: i64) -> Scalar {
        match self {
            AnyField::Prime(field) => field.from_int(n),
        }
    }

    fn add(&self, a: Scalar, b: Scalar) -> Scalar {
        match self {
            AnyField::Prime(field) => field.add(a, b),
        }
    }

    fn neg(&self, a: Scalar) -> Scalar {
        match self {
            AnyField::Prime(field) => field.neg(a),
        }
    }

    fn mul(&self, a: Scalar, b: Scalar) -> Scalar {
        match self {
            AnyField::Prime(field) => field.mul(a, b),
        }
    }

    fn inv(&self, a: Scalar) -> Scalar {
        match self {
            AnyField::Prime(field) => field.inv(a),
        }
    }
}

ghost use Rattle.std.specs.Prelude.{◌≡◌, ◌↔◌, IsSome, IfSome, IsTrue, ◌<◌, ◌≤◌};
ghost use Rattle.conley_field.specs.Prime.{is_prime_order, residues};
ghost use Rattle.conley_field.specs.PrimeField.{order_of, order_of-IsField};

use crate::{Field, Scalar};

/// The residues modulo a prime of the table: 2, 3, 5, 7, 11, 13, 17, 19, 23, 29 or 31.
#[derive(Clone, Copy, PartialEq, Eq)]
pub enum PrimeField {
    Two,
    Three,
    Five,
    Seven,
    Eleven,
    Thirteen,
    Seventeen,
    Nineteen,
    TwentyThree,
    TwentyNine,
    ThirtyOne,
}

impl PrimeField {
    /// The field of this order, or `None` where the table has no such order. The code of an element is the residue.
    pub fn of(order: u32) -> Option<PrimeField>
        ensures listed { IsSome result ↔ IsTrue (is_prime_order order) }
        ensures order { IfSome result (λ f. order_of f ≡ order) }
    {
        match order {
            2 => Some(PrimeField::Two),
            3 => Some(PrimeField::Three),
            5 => Some(PrimeField::Five),
            7 => Some(PrimeField::Seven),
            11 => Some(PrimeField::Eleven),
            13 => Some(PrimeField::Thirteen),
            17 => Some(PrimeField::Seventeen),
            19 => Some(PrimeField::Nineteen),
            23 => Some(PrimeField::TwentyThree),
            29 => Some(PrimeField::TwentyNine),
            31 => Some(PrimeField::ThirtyOne),
            _ => None,
        }
    }
}

impl Field for PrimeField {
    ghost arithmetic = { λ f. residues (order_of f) };

    ghost is_field = { order_of-IsField };

    fn order(&self) -> u8
        ensures order { result ≡ order_of self.now }
        ensures above { 1 < result }
        ensures most { result ≤ 31 }
    {
        match self {
            PrimeField::Two => 2,
            PrimeField::Three => 3,
            PrimeField::Five => 5,
            PrimeField::Seven => 7,
            PrimeField::Eleven => 11,
            PrimeField::Thirteen => 13,
            PrimeField::Seventeen => 17,
            PrimeField::Nineteen => 19,
            PrimeField::TwentyThree => 23,
            PrimeField::TwentyNine => 29,
            PrimeField::ThirtyOne => 31,
        }
    }

    fn zero(&self) -> Scalar {
        Scalar::of(0)
    }

    fn one(&self) -> Scalar {
        Scalar::of(1)
    }

    fn from_code(&self, code: u8) -> Option<Scalar> {
        if code < self.order() {
            Some(Scalar::of(code))
        } else {
            None
        }
    }

    fn from_int(&self, n: i64) -> Scalar {
        let ones = Scalar::of((n.unsigned_abs() % self.order() as u64) as u8);
        if n < 0 { self.neg(ones) } else { ones }
    }

    fn add(&self, a: Scalar, b: Scalar) -> Scalar {
        let order = self.order();
        let sum = a.code() + b.code();
        Scalar::of(if sum < order { sum } else { sum - order })
    }

    fn neg(&self, a: Scalar) -> Scalar {
        let code = a.code();
        Scalar::of(if code == 0 { 0 } else { self.order() - code })
    }

    fn mul(&self, a: Scalar, b: Scalar) -> Scalar {
        Scalar::of(((a.code() as u32 * b.code() as u32) % self.order() as u32) as u8)
    }

    fn inv(&self, a: Scalar) -> Scalar {
        let mut power = self.one();
        for _ in 0..self.order() - 2 {
            power = self.mul(power, a);
        }
        power
    }
}

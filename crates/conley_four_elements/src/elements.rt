ghost use Rattle.std.specs.Prelude.{◌≡◌};
ghost use Rattle.conley_four_elements.specs.FourElements.{four, four-IsField};

use conley_field::{Field, Scalar};

/// The field with four elements. The element `a + b·w` has the code `a + 2b`, where `a` and `b` are 0 or 1 and `w·w` is `w + 1`.
#[derive(Clone, Copy)]
pub struct FourElements;

impl Field for FourElements {
    ghost arithmetic = { λ _. four };

    ghost is_field = { λ _. four-IsField };

    fn order(&self) -> u8 {
        4
    }

    fn zero(&self) -> Scalar {
        Scalar::of(0)
    }

    fn one(&self) -> Scalar {
        Scalar::of(1)
    }

    fn from_code(&self, code: u8) -> Option<Scalar> {
        if code < 4 {
            Some(Scalar::of(code))
        } else {
            None
        }
    }

    fn from_int(&self, n: i64) -> Scalar {
        Scalar::of((n.unsigned_abs() % 2) as u8)
    }

    fn add(&self, a: Scalar, b: Scalar) -> Scalar {
        Scalar::of(SUMS[a.code() as usize][b.code() as usize])
    }

    fn neg(&self, a: Scalar) -> Scalar {
        a
    }

    fn mul(&self, a: Scalar, b: Scalar) -> Scalar {
        Scalar::of(PRODUCTS[a.code() as usize][b.code() as usize])
    }

    fn inv(&self, a: Scalar) -> Scalar {
        self.mul(a, a)
    }
}

static SUMS: [[u8; 4]; 4] = [[0, 1, 2, 3], [1, 0, 3, 2], [2, 3, 0, 1], [3, 2, 1, 0]];

static PRODUCTS: [[u8; 4]; 4] = [[0, 0, 0, 0], [0, 1, 2, 3], [0, 2, 3, 1], [0, 3, 1, 2]];

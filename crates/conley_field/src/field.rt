ghost use Rattle.std.specs.Prelude.{◌≡◌, ◌≢◌, ℕ, ◌<◌, ◌↔◌, IsSome, IfSome};
ghost use Rattle.conley_field.specs.Arithmetic.{Arithmetic, IsField, code_of_int};

use crate::Scalar;

/// A field whose elements are the scalars with a code below its order. No call takes memory.
pub trait Field: Copy {
    /// The order, and the operations on codes.
    ghost arithmetic: { Self → Arithmetic };

    /// The number of elements.
    fn order(&self) -> u8
        ensures { result ≡ (arithmetic self.now).order };

    /// The element that changes nothing when it is added.
    fn zero(&self) -> Scalar
        ensures { result ≡ 0 };

    /// The element that changes nothing when it is a factor.
    fn one(&self) -> Scalar
        ensures { result ≡ 1 };

    /// The element with this code, or `None` where no element has it.
    fn from_code(&self, code: u8) -> Option<Scalar>
        ensures some { IsSome result ↔ (code < (arithmetic self.now).order) }
        ensures value { IfSome result (λ a. a ≡ code) };

    /// The sum of `n` ones, or the negative of the sum of `-n` ones.
    fn from_int(&self, n: i64) -> Scalar
        ensures { result ≡ code_of_int (arithmetic self.now) n };

    /// The sum of two elements.
    fn add(&self, a: Scalar, b: Scalar) -> Scalar
        requires a_below { a < (arithmetic self.now).order }
        requires b_below { b < (arithmetic self.now).order }
        ensures { result ≡ (arithmetic self.now).add a b };

    /// The element that gives zero when it is added to `a`.
    fn neg(&self, a: Scalar) -> Scalar
        requires { a < (arithmetic self.now).order }
        ensures { result ≡ (arithmetic self.now).neg a };

    /// The product of two elements.
    fn mul(&self, a: Scalar, b: Scalar) -> Scalar
        requires a_below { a < (arithmetic self.now).order }
        requires b_below { b < (arithmetic self.now).order }
        ensures { result ≡ (arithmetic self.now).mul a b };

    /// The element that gives one when it is multiplied by `a`, which isn't zero.
    fn inv(&self, a: Scalar) -> Scalar
        requires below { a < (arithmetic self.now).order }
        requires not_zero { a ≢ 0 }
        ensures { result ≡ (arithmetic self.now).inv a };

    /// The operations are those of a field.
    ghost is_field: { (f : Self) → IsField (arithmetic f) };
}

//! The first of several faults: the notion by which each refusal and each failing law is told.

ghost use Rattle.std.specs.Prelude.{◌≡◌, ℕ, List, Bool, IsTrue};
ghost use Rattle.conley_first.specs.First.{IsFirst, IsTold};

/// At most one fault is the first, where the number and the place of a fault that holds tell the rest of it.
pub fn first_is_one<F>()
    ensures { (number : F → ℕ) (place : F → List ℕ) (holds : F → Bool) (a b : F) → IsTold number place (λ f. IsTrue (holds f)) →
        IsFirst number place (λ f. IsTrue (holds f)) a → IsFirst number place (λ f. IsTrue (holds f)) b → a ≡ b }
{}

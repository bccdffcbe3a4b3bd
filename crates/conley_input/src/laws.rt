//! Laws of what the bytes of a file come to.

ghost use Rattle.std.specs.Prelude.{◌≡◌, ℕ, List};
ghost use Rattle.conley_input.specs.Problem.{Problem, Reads, Refuses};
ghost use Rattle.conley_input.specs.declared.error.FileFault.{FileFault};

/// The bytes of a file stand for at most one problem, they have at most one refusal, and never both.
pub fn bytes_come_to_one_thing()
    ensures problem { (bytes : List ℕ) (p q : Problem) → Reads bytes p → Reads bytes q → p ≡ q }
    ensures refusal { (bytes : List ℕ) (a b : FileFault) → Refuses bytes a → Refuses bytes b → a ≡ b }
    ensures never_both { (bytes : List ℕ) (fault : FileFault) (problem : Problem) → Refuses bytes fault → ¬ Reads bytes problem }
{}

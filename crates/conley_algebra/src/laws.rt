ghost use Rattle.std.specs.Prelude.{◌≡◌, ◌<◌, ℕ, Bool, IsTrue};
ghost use Rattle.conley_algebra.specs.Entries.{Vector, Entries};
ghost use Rattle.conley_algebra.specs.Subspace.{IsKernel};
ghost use Rattle.conley_algebra.specs.Homology.{IsHomologyBasis};

use conley_field::Field;

/// A matrix with more columns than rows takes some scalars that are not all zero to zero.
pub fn wide_matrices_have_kernels<F: Field>(field: &F)
    ensures { (r s : ℕ) (a : Entries) → ((i j : ℕ) → a i j < (F.arithmetic field.now).order) → r < s →
        (c : Vector) × IsKernel (F.arithmetic field.now) r s a c }
{}

/// Any two lists of relative cycles that are a basis of homology in one dimension have one length.
pub fn bases_have_one_length<F: Field>(field: &F)
    ensures { (n : ℕ) (boundary : Entries) (dim : ℕ → ℕ) (closure mouth : ℕ → Bool) (k r s : ℕ) (z w : ℕ → Vector) →
        IsHomologyBasis (F.arithmetic field.now) n boundary dim (λ x. IsTrue (closure x)) (λ x. IsTrue (mouth x)) k r z →
        IsHomologyBasis (F.arithmetic field.now) n boundary dim (λ x. IsTrue (closure x)) (λ x. IsTrue (mouth x)) k s w → r ≡ s }
{}

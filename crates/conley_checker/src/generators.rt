//! The law of generators, and what is read of them.

ghost use Rattle.std.specs.Prelude.{◌≡◌, ◌<◌, ◌^◌, ◌-◌, ℕ, IfOk, length, slice_index};
ghost use Rattle.conley_field.specs.Arithmetic.{Arithmetic};
ghost use Rattle.conley_certificate.specs.Places.{first_place};
ghost use Rattle.conley_certificate.specs.Problem.{problem_of};
ghost use Rattle.conley_certificate_file.specs.CertificateMeaning.{meaning_of};
ghost use Rattle.conley_certificate.specs.Certificate.{generator_count, set_count, set_of, dim_of, base_of};
ghost use Rattle.conley_checker.specs.Given.{GeneratorsNameSets};
ghost use Rattle.conley_certificate.specs.Laws.{generator_law};

use conley_certificate::Reason;
use conley_certificate_file::Certificate;
use conley_chains::NoMemory;
use conley_field::Field;
use conley_lefschetz::Complex;
use conley_mvf::Partition;
use std::alloc::Global;

/// Each generator names a set and a dimension.
pub(crate) fn compare_generators<F: Field>(
    complex: &Complex<F>,
    partition: &Partition,
    certificate: &Certificate,
) -> Option<Reason>
    requires few { generator_count (meaning_of certificate.now) < 2 ^ 32 - 1 }
    ensures { result ≡ first_place (generator_law (problem_of (F.arithmetic complex.now.0) complex.now.1 partition.now) (meaning_of certificate.now)) }
{
    let sets = certificate.morse.len();
    let levels = complex.levels();
    let _partition = partition;
    for g in 0..certificate.generators.len() {
        let e = certificate.generators[g];
        if sets <= e.0 as usize {
            return Some(Reason {
                law: 3,
                part: 0,
                row: g as u32,
                column: 0,
                have: e.0 as u64,
                want: sets as u64,
            });
        }
        if levels <= e.1 as usize {
            return Some(Reason {
                law: 3,
                part: 0,
                row: g as u32,
                column: 1,
                have: e.1 as u64,
                want: levels as u64,
            });
        }
    }
    None
}

/// The set of each generator.
pub(crate) fn sets_of(alloc: Global, certificate: &Certificate) -> Result<Vec<u32>, NoMemory>
    ensures count { IfOk result (λ v. length v.items ≡ generator_count (meaning_of certificate.now)) }
    ensures sets { IfOk result (λ v. (g : ℕ) → g < generator_count (meaning_of certificate.now)
        → slice_index v.items g ≡ set_of (meaning_of certificate.now) g) }
{
    let mut sets = Vec::new(alloc);
    for g in 0..certificate.generators.len() {
        let e = certificate.generators[g];
        sets.push(e.0)?;
    }
    Ok(sets)
}

/// The dimension of each generator.
pub(crate) fn dims_of(alloc: Global, certificate: &Certificate) -> Result<Vec<u8>, NoMemory>
    ensures count { IfOk result (λ v. length v.items ≡ generator_count (meaning_of certificate.now)) }
    ensures dims { IfOk result (λ v. (g : ℕ) → g < generator_count (meaning_of certificate.now)
        → slice_index v.items g ≡ dim_of (meaning_of certificate.now) g) }
{
    let mut dims = Vec::new(alloc);
    for g in 0..certificate.generators.len() {
        let e = certificate.generators[g];
        dims.push(e.1)?;
    }
    Ok(dims)
}

/// The first cell of the set of each generator.
pub(crate) fn bases_of(alloc: Global, certificate: &Certificate) -> Result<Vec<u32>, NoMemory>
    requires named { GeneratorsNameSets (meaning_of certificate.now) }
    ensures count { IfOk result (λ v. length v.items ≡ generator_count (meaning_of certificate.now)) }
    ensures bases { IfOk result (λ v. (g : ℕ) → g < generator_count (meaning_of certificate.now)
        → slice_index v.items g ≡ base_of (meaning_of certificate.now) g) }
{
    let mut bases = Vec::new(alloc);
    for g in 0..certificate.generators.len() {
        let e = certificate.generators[g];
        bases.push(certificate.morse[e.0 as usize][0])?;
    }
    Ok(bases)
}

//! How many generators name each set, counted in one pass.

ghost use Rattle.std.specs.Prelude.{◌≡◌, ◌<◌, ◌^◌, ◌-◌, ℕ, false, IfOk, [], length, replicate, slice_index, slice_index_or};
ghost use Rattle.conley_lists.specs.Lists.{items_of};
ghost use Rattle.conley_certificate_file.specs.CertificateMeaning.{meaning_of};
ghost use Rattle.conley_certificate.specs.Certificate.{generator_count, set_count};
ghost use Rattle.conley_certificate.specs.Values.{is_named};
ghost use Rattle.conley_checker.specs.Rows.{AreCounts, AddsOne};

use conley_certificate_file::Certificate;
use conley_chains::NoMemory;
use std::alloc::Global;

/// A list of zeros for each set.
fn zero_counts(alloc: Global, sets: usize, levels: usize) -> Result<Vec<Vec<u32>>, NoMemory>
    ensures count { IfOk result (λ counts. length counts.items ≡ sets) }
    ensures zeros { IfOk result (λ counts. (i : ℕ) → i < sets → slice_index_or (items_of counts.items) i [] ≡ replicate levels 0) }
{
    let mut counts = Vec::new(alloc);
    for i in 0..sets {
        counts.push(vec![in alloc; 0u32; levels]?)?;
    }
    Ok(counts)
}

/// Adds one to number k of list i.
fn count_one(counts: &mut Vec<Vec<u32>>, i: u32, k: u8)
    requires list { i < length counts.old.items }
    requires place { k < length (slice_index_or (items_of counts.old.items) i []) }
    requires room { slice_index (slice_index_or (items_of counts.old.items) i []) k < 2 ^ 32 - 1 }
    ensures { AddsOne (items_of counts.old.items) (items_of counts.new.items) i k }
{
    counts[i as usize][k as usize] += 1;
}

/// How many generators name each set, for each dimension.
pub(crate) fn generator_counts(
    alloc: Global,
    certificate: &Certificate,
    levels: usize,
) -> Result<Vec<Vec<u32>>, NoMemory>
    requires few { generator_count (meaning_of certificate.now) < 2 ^ 32 - 1 }
    ensures { IfOk result (λ counts. AreCounts (meaning_of certificate.now) levels (generator_count (meaning_of certificate.now)) (items_of counts.items)) }
{
    let sets = certificate.morse.len();
    let mut counts = zero_counts(alloc, sets, levels)?;
    for g in 0..certificate.generators.len() {
        let e = certificate.generators[g];
        if (e.0 as usize) < sets && (e.1 as usize) < levels {
            count_one(&mut counts, e.0, e.1);
        }
    }
    Ok(counts)
}

/// For each set whether a generator names it.
pub(crate) fn named_sets(alloc: Global, certificate: &Certificate) -> Result<Vec<bool>, NoMemory>
    ensures width { IfOk result (λ named. length named.items ≡ set_count (meaning_of certificate.now)) }
    ensures named { IfOk result (λ named. (i : ℕ) → i < set_count (meaning_of certificate.now)
        → slice_index_or named.items i false ≡ is_named (meaning_of certificate.now) i) }
{
    let mut named = vec![in alloc; false; certificate.morse.len()]?;
    for g in 0..certificate.generators.len() {
        let e = certificate.generators[g];
        if (e.0 as usize) < named.len() {
            named[e.0 as usize] = true;
        }
    }
    Ok(named)
}

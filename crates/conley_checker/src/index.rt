//! The law of the index: a set's numbers are those of its generators, and a single part has a generator.

ghost use Rattle.std.specs.Prelude.{◌≡◌, ◌≢◌, ◌<◌, ◌+◌, ◌^◌, ◌-◌, ◌↔◌, ℕ, Bool, IfOk, Some, None, IsNone, IsTrue, IfSome, Contains, length, slice_index, All, []};
ghost use Rattle.conley_certificate.specs.Places.{first_place};
ghost use Rattle.conley_certificate.specs.Problem.{cell_count, problem_of};
ghost use Rattle.conley_certificate.specs.Certificate.{generator_count, set_count, first_cell};
ghost use Rattle.conley_certificate_file.specs.CertificateMeaning.{meaning_of};
ghost use Rattle.conley_checker.specs.Given.{AreGiven, ArePlaces};
ghost use Rattle.conley_checker.specs.Rows.{IsFineRow};
ghost use Rattle.conley_certificate.specs.Values.{generators_at, is_named, is_one_part};
ghost use Rattle.conley_certificate.specs.Laws.{index_law};

use crate::counts::{generator_counts, named_sets};
use conley_certificate::Reason;
use conley_certificate_file::Certificate;
use conley_chains::NoMemory;
use conley_field::Field;
use conley_lefschetz::Complex;
use conley_mvf::Partition;
use std::alloc::Global;

/// A place where two lists differ, with the numbers of both.
#[derive(Clone, Copy)]
struct Unequal {
    pub place: u32,
    pub have: u32,
    pub want: u32,
}

/// The first place where two lists of one length differ.
fn first_unequal(left: &[u32], right: &[u32]) -> Option<Unequal>
    requires same_length { length left.now ≡ length right.now }
    requires few { length left.now < 2 ^ 32 }
    ensures same { IsNone result → (k : ℕ) → k < length left.now → slice_index left.now k ≡ slice_index right.now k }
    ensures within { IfSome result (λ d. d.place < length left.now) }
    ensures left { IfSome result (λ d. d.have ≡ slice_index left.now d.place) }
    ensures right { IfSome result (λ d. d.want ≡ slice_index right.now d.place) }
    ensures differ { IfSome result (λ d. d.have ≢ d.want) }
    ensures before { IfSome result (λ d. (j : ℕ) → j < d.place → slice_index left.now j ≡ slice_index right.now j) }
{
    for k in 0..left.len() {
        if left[k] != right[k] {
            return Some(Unequal {
                place: k as u32,
                have: left[k],
                want: right[k],
            });
        }
    }
    None
}

/// The first cell of a set.
pub(crate) fn first_of(certificate: &Certificate, set: u32) -> u32
    requires within { set < set_count (meaning_of certificate.now) }
    requires non_empty { All (λ set. set ≢ []) (meaning_of certificate.now).morse }
    ensures { result ≡ first_cell (meaning_of certificate.now) set }
{
    certificate.morse[set as usize][0]
}

/// Whether all cells of a list are of one part.
fn are_of_part(partition: &Partition, cells: &[u32], part: u32) -> bool
    requires { All (λ x. x < length partition.now) cells.now }
    ensures { IsTrue result ↔ ((x : ℕ) → Contains cells.now x → slice_index partition.now x ≡ part) }
{
    for k in 0..cells.len() {
        let here = partition.part_of(cells[k]);
        if here != part {
            return false;
        }
    }
    true
}

/// Whether all cells of a list have the number of a set.
fn are_of_set(cells: &[u32], place: &[u32], set: u32) -> bool
    requires cells { All (λ x. x < length place.now) cells.now }
    requires few { set < 2 ^ 32 - 1 }
    ensures { IsTrue result ↔ ((x : ℕ) → Contains cells.now x → slice_index place.now x ≡ set + 1) }
{
    let wanted = set + 1;
    for k in 0..cells.len() {
        let here = place[cells[k] as usize];
        if here != wanted {
            return false;
        }
    }
    true
}

/// Whether the set's cells are those of one part.
fn is_part<F: Field>(
    complex: &Complex<F>,
    partition: &Partition,
    certificate: &Certificate,
    place: &[u32],
    set: u32,
) -> bool
    requires given { AreGiven (problem_of (F.arithmetic complex.now.0) complex.now.1 partition.now) (meaning_of certificate.now) }
    requires places { ArePlaces (problem_of (F.arithmetic complex.now.0) complex.now.1 partition.now) (meaning_of certificate.now) place.now }
    requires within { set < set_count (meaning_of certificate.now) }
    ensures { result ≡ is_one_part (problem_of (F.arithmetic complex.now.0) complex.now.1 partition.now) (meaning_of certificate.now) set }
{
    let _complex = complex;
    let part = partition.part_of(first_of(certificate, set));
    are_of_part(partition, &certificate.morse[set as usize], part)
        && are_of_set(partition.cells_of(part), place, set)
}

/// The index of a set is the number of its generators.
fn compare_row<F: Field>(
    complex: &Complex<F>,
    partition: &Partition,
    certificate: &Certificate,
    place: &[u32],
    counts: &[u32],
    named: bool,
    set: u32,
) -> Option<Reason>
    requires given { AreGiven (problem_of (F.arithmetic complex.now.0) complex.now.1 partition.now) (meaning_of certificate.now) }
    requires places { ArePlaces (problem_of (F.arithmetic complex.now.0) complex.now.1 partition.now) (meaning_of certificate.now) place.now }
    requires within { set < set_count (meaning_of certificate.now) }
    requires width { length counts.now ≡ complex.now.1.levels }
    requires counts { (k : ℕ) → k < complex.now.1.levels → slice_index counts.now k ≡ generators_at (meaning_of certificate.now) set k }
    requires named { named ≡ is_named (meaning_of certificate.now) set }
    ensures fine { IsNone result → IsFineRow (problem_of (F.arithmetic complex.now.0) complex.now.1 partition.now) (meaning_of certificate.now) set }
    ensures fails { IfSome result (λ reason. ((r : ℕ) → r < set → IsFineRow (problem_of (F.arithmetic complex.now.0) complex.now.1 partition.now)
        (meaning_of certificate.now) r) → Some reason ≡ first_place (index_law (problem_of (F.arithmetic complex.now.0) complex.now.1 partition.now)
        (meaning_of certificate.now))) }
{
    let numbers = certificate.index[set as usize].as_slice();
    match first_unequal(numbers, counts) {
        Some(d) => {
            return Some(Reason {
                law: 4,
                part: 0,
                row: set,
                column: d.place,
                have: d.have as u64,
                want: d.want as u64,
            });
        }
        None => {}
    }
    let part = is_part(complex, partition, certificate, place, set);
    if part && !named {
        return Some(Reason {
            law: 4,
            part: 0,
            row: set,
            column: complex.levels() as u32,
            have: 0,
            want: 1,
        });
    }
    None
}

/// The index of each set is the number of its generators, which are counted in one pass.
pub(crate) fn compare_index<F: Field>(
    alloc: Global,
    complex: &Complex<F>,
    partition: &Partition,
    certificate: &Certificate,
    place: &[u32],
) -> Result<Option<Reason>, NoMemory>
    requires given { AreGiven (problem_of (F.arithmetic complex.now.0) complex.now.1 partition.now) (meaning_of certificate.now) }
    requires places { ArePlaces (problem_of (F.arithmetic complex.now.0) complex.now.1 partition.now) (meaning_of certificate.now) place.now }
    ensures { IfOk result (λ found. found ≡ first_place (index_law (problem_of (F.arithmetic complex.now.0) complex.now.1 partition.now)
        (meaning_of certificate.now))) }
{
    let counts = generator_counts(alloc, certificate, complex.levels())?;
    let named = named_sets(alloc, certificate)?;
    for i in 0..certificate.morse.len() {
        let here = i as u32;
        let own = counts[i].as_slice();
        match compare_row(complex, partition, certificate, place, own, named[i], here) {
            Some(reason) => return Ok(Some(reason)),
            None => {}
        }
    }
    Ok(None)
}

//! The law of the sets: they are the classes that are wanted, in the order of least cells.

ghost use Rattle.std.specs.Prelude.{◌≡◌, ◌<◌, ◌≢◌, ◌==◌, ◌&&◌, ◌||◌, not, ℕ, Bool, false, IfOk, length, slice_index, slice_index_or};
ghost use Rattle.conley_certificate.specs.Places.{first_place};
ghost use Rattle.conley_certificate.specs.Problem.{problem_of};
ghost use Rattle.conley_certificate_file.specs.CertificateMeaning.{meaning_of};
ghost use Rattle.conley_checker.specs.Given.{AreGiven, ArePlaces, AreClassNumbers, AreLeasts};
ghost use Rattle.conley_certificate.specs.Reach.{has_two_parts};
ghost use Rattle.conley_certificate.specs.Values.{wanted_place};
ghost use Rattle.conley_certificate.specs.Laws.{sets_law};

use conley_certificate::Reason;
use conley_certificate_file::Certificate;
use conley_chains::NoMemory;
use conley_field::Field;
use conley_lefschetz::Complex;
use conley_mvf::Partition;
use std::alloc::Global;

/// The least cell of each class.
pub(crate) fn leasts_of<F: Field>(
    alloc: Global,
    complex: &Complex<F>,
    partition: &Partition,
    certificate: &Certificate,
    class_of: &[u32],
) -> Result<Vec<u32>, NoMemory>
    requires given { AreGiven (problem_of (F.arithmetic complex.now.0) complex.now.1 partition.now) (meaning_of certificate.now) }
    requires classes { AreClassNumbers (problem_of (F.arithmetic complex.now.0) complex.now.1 partition.now) class_of.now }
    ensures { IfOk result (λ leasts. AreLeasts (problem_of (F.arithmetic complex.now.0) complex.now.1 partition.now) class_of.now leasts.items) }
{
    let _complex = complex;
    let _partition = partition;
    let _certificate = certificate;
    let mut leasts = Vec::new(alloc);
    for x in 0..class_of.len() {
        if class_of[x] as usize == leasts.len() {
            leasts.push(x as u32)?;
        }
    }
    Ok(leasts)
}

/// For each class whether it has two or more parts.
pub(crate) fn two_parts_of<F: Field>(
    alloc: Global,
    complex: &Complex<F>,
    partition: &Partition,
    certificate: &Certificate,
    class_of: &[u32],
    leasts: &[u32],
) -> Result<Vec<bool>, NoMemory>
    requires given { AreGiven (problem_of (F.arithmetic complex.now.0) complex.now.1 partition.now) (meaning_of certificate.now) }
    requires classes { AreClassNumbers (problem_of (F.arithmetic complex.now.0) complex.now.1 partition.now) class_of.now }
    requires leasts { AreLeasts (problem_of (F.arithmetic complex.now.0) complex.now.1 partition.now) class_of.now leasts.now }
    ensures width { IfOk result (λ two. length two.items ≡ length leasts.now) }
    ensures two { IfOk result (λ two. (c : ℕ) → c < length leasts.now → slice_index_or two.items c false ≡ has_two_parts
        (problem_of (F.arithmetic complex.now.0) complex.now.1 partition.now) (slice_index leasts.now c)) }
{
    let _complex = complex;
    let _certificate = certificate;
    let mut two = vec![in alloc; false; leasts.len()]?;
    for x in 0..class_of.len() {
        let class = class_of[x] as usize;
        let least = leasts[class];
        let here = partition.part_of(x as u32);
        let there = partition.part_of(least);
        if here != there {
            two[class] = true;
        }
    }
    Ok(two)
}

/// Whether a class is wanted: it has two or more parts, or its least cell is in a set.
fn wants(two_parts: bool, place: u32) -> bool
    ensures { result ≡ (two_parts || not (place == 0)) }
{
    two_parts || place != 0
}

/// For each class 1 plus the number of wanted classes before it, or 0 where it isn't wanted.
pub(crate) fn wanted_places_of<F: Field>(
    alloc: Global,
    complex: &Complex<F>,
    partition: &Partition,
    certificate: &Certificate,
    class_of: &[u32],
    place: &[u32],
    leasts: &[u32],
) -> Result<Vec<u32>, NoMemory>
    requires given { AreGiven (problem_of (F.arithmetic complex.now.0) complex.now.1 partition.now) (meaning_of certificate.now) }
    requires classes { AreClassNumbers (problem_of (F.arithmetic complex.now.0) complex.now.1 partition.now) class_of.now }
    requires places { ArePlaces (problem_of (F.arithmetic complex.now.0) complex.now.1 partition.now) (meaning_of certificate.now) place.now }
    requires leasts { AreLeasts (problem_of (F.arithmetic complex.now.0) complex.now.1 partition.now) class_of.now leasts.now }
    ensures width { IfOk result (λ wanted. length wanted.items ≡ length leasts.now) }
    ensures wanted { IfOk result (λ wanted. (c : ℕ) → c < length leasts.now → slice_index wanted.items c ≡ wanted_place
        (problem_of (F.arithmetic complex.now.0) complex.now.1 partition.now) (meaning_of certificate.now) (slice_index leasts.now c)) }
{
    let two = two_parts_of(alloc, complex, partition, certificate, class_of, leasts)?;
    let mut wanted = Vec::new(alloc);
    let mut count: u32 = 0;
    for c in 0..leasts.len() {
        let least = leasts[c] as usize;
        if wants(two[c], place[least]) {
            count += 1;
            wanted.push(count)?;
        } else {
            wanted.push(0)?;
        }
    }
    Ok(wanted)
}

/// The sets are the wanted classes, in the order of their least cells.
pub(crate) fn compare_sets<F: Field>(
    alloc: Global,
    complex: &Complex<F>,
    partition: &Partition,
    certificate: &Certificate,
    class_of: &[u32],
    place: &[u32],
) -> Result<Option<Reason>, NoMemory>
    requires given { AreGiven (problem_of (F.arithmetic complex.now.0) complex.now.1 partition.now) (meaning_of certificate.now) }
    requires classes { AreClassNumbers (problem_of (F.arithmetic complex.now.0) complex.now.1 partition.now) class_of.now }
    requires places { ArePlaces (problem_of (F.arithmetic complex.now.0) complex.now.1 partition.now) (meaning_of certificate.now) place.now }
    ensures { IfOk result (λ found. found ≡ first_place (sets_law (problem_of (F.arithmetic complex.now.0) complex.now.1 partition.now)
        (meaning_of certificate.now))) }
{
    let leasts = leasts_of(alloc, complex, partition, certificate, class_of)?;
    let wanted = wanted_places_of(
        alloc,
        complex,
        partition,
        certificate,
        class_of,
        place,
        &leasts,
    )?;
    for x in 0..class_of.len() {
        let want = wanted[class_of[x] as usize];
        if place[x] != want {
            return Ok(Some(Reason {
                law: 1,
                part: 0,
                row: x as u32,
                column: 0,
                have: place[x] as u64,
                want: want as u64,
            }));
        }
    }
    Ok(None)
}

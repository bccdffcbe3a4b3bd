//! The law of the order, by rows of bits: the pairs of each set are those of its lower sets that aren't lower than another of them.

ghost use Rattle.std.specs.Prelude.{◌≡◌, ◌<◌, ◌↔◌, ℕ, All, Contains, Some, None, IfOk, IfSome, length, slice_index_or};
ghost use Rattle.conley_lists.specs.Lists.{items_of, IsMarked};
ghost use Rattle.conley_order.specs.LowerRows.{AreLowerRows};
ghost use Rattle.conley_certificate_file.specs.CertificateMeaning.{meaning_of};
ghost use Rattle.conley_certificate.specs.Places.{first_place};
ghost use Rattle.conley_certificate.specs.Problem.{problem_of};
ghost use Rattle.conley_certificate.specs.Certificate.{set_count};
ghost use Rattle.conley_certificate.specs.Values.{is_cover};
ghost use Rattle.conley_certificate.specs.Laws.{order_law};
ghost use Rattle.conley_checker.specs.Given.{AreGiven, IsReachTest, AreFirsts};
ghost use Rattle.conley_checker.specs.Rows.{IsFineOrder, AreListed, set_lower};

use crate::index::first_of;
use conley_certificate::Reason;
use conley_certificate_file::Certificate;
use conley_chains::NoMemory;
use conley_field::Field;
use conley_lefschetz::Complex;
use conley_lists::{empty_lists, put_under};
use conley_mvf::Partition;
use conley_order::{Grading, is_next, lower_rows, lower_still};
use std::alloc::Global;

/// The first cell of each set.
pub(crate) fn firsts_of<F: Field>(
    alloc: Global,
    complex: &Complex<F>,
    partition: &Partition,
    certificate: &Certificate,
) -> Result<Vec<u32>, NoMemory>
    requires given { AreGiven (problem_of (F.arithmetic complex.now.0) complex.now.1 partition.now) (meaning_of certificate.now) }
    ensures { IfOk result (λ firsts. AreFirsts (problem_of (F.arithmetic complex.now.0) complex.now.1 partition.now) (meaning_of certificate.now)
        firsts.items) }
{
    let _complex = complex;
    let _partition = partition;
    let mut firsts = Vec::new(alloc);
    for i in 0..certificate.morse.len() {
        firsts.push(first_of(certificate, i as u32))?;
    }
    Ok(firsts)
}

/// For each set a row of bits of the sets that it reaches, itself left out.
fn lower_sets<F: Field, G: Grading>(
    alloc: Global,
    complex: &Complex<F>,
    partition: &Partition,
    reach: &G,
    certificate: &Certificate,
) -> Result<Vec<Vec<u64>>, NoMemory>
    requires given { AreGiven (problem_of (F.arithmetic complex.now.0) complex.now.1 partition.now) (meaning_of certificate.now) }
    requires reach { IsReachTest (problem_of (F.arithmetic complex.now.0) complex.now.1 partition.now) (G.cell_count reach.now) (G.is_below reach.now) }
    ensures { IfOk result (λ lower. AreLowerRows (set_lower (problem_of (F.arithmetic complex.now.0) complex.now.1 partition.now) (meaning_of certificate.now))
        (set_count (meaning_of certificate.now)) (set_count (meaning_of certificate.now)) (items_of lower.items)) }
{
    let firsts = firsts_of(alloc, complex, partition, certificate)?;
    let cells = firsts.as_slice();
    let lower = lower_rows(alloc, reach, cells)?;
    Ok(lower)
}

/// The second set of each pair, under the first.
fn listed_under(alloc: Global, certificate: &Certificate) -> Result<Vec<Vec<u32>>, NoMemory>
    requires sets { All (λ pair. (pair.0 < set_count (meaning_of certificate.now)) × (pair.1 < set_count (meaning_of certificate.now)))
        (meaning_of certificate.now).order }
    ensures { IfOk result (λ lists. AreListed (meaning_of certificate.now) (length (meaning_of certificate.now).order) (items_of lists.items)) }
{
    let mut lists = empty_lists(alloc, certificate.morse.len())?;
    for k in 0..certificate.order.len() {
        let pair = certificate.order[k];
        put_under(&mut lists, pair.0, pair.1)?;
    }
    Ok(lists)
}

/// A mark at each number of a list.
fn marks_of(alloc: Global, list: &[u32], width: usize) -> Result<Vec<bool>, NoMemory>
    requires { All (λ q. q < width) list.now }
    ensures width { IfOk result (λ row. length row.items ≡ width) }
    ensures marks { IfOk result (λ row. (q : ℕ) → IsMarked row.items q ↔ Contains list.now q) }
{
    let mut row = vec![in alloc; false; width]?;
    for k in 0..list.len() {
        let x = list[k];
        row[x as usize] = true;
    }
    Ok(row)
}

/// The pairs of one upper set are its covers.
fn compare_order_row<F: Field>(
    alloc: Global,
    complex: &Complex<F>,
    partition: &Partition,
    certificate: &Certificate,
    listed: &[Vec<u32>],
    lower: &[Vec<u64>],
    p: u32,
) -> Result<Option<Reason>, NoMemory>
    requires given { AreGiven (problem_of (F.arithmetic complex.now.0) complex.now.1 partition.now) (meaning_of certificate.now) }
    requires listed { AreListed (meaning_of certificate.now) (length (meaning_of certificate.now).order) (items_of listed.now) }
    requires lower { AreLowerRows (set_lower (problem_of (F.arithmetic complex.now.0) complex.now.1 partition.now) (meaning_of certificate.now))
        (set_count (meaning_of certificate.now)) (set_count (meaning_of certificate.now)) (items_of lower.now) }
    requires upper { p < set_count (meaning_of certificate.now) }
    ensures fine { IfOk result (λ found. found ≡ None → IsFineOrder (problem_of (F.arithmetic complex.now.0) complex.now.1 partition.now)
        (meaning_of certificate.now) p) }
    ensures fails { IfOk result (λ found. IfSome found (λ reason. ((r : ℕ) → r < p → IsFineOrder
        (problem_of (F.arithmetic complex.now.0) complex.now.1 partition.now) (meaning_of certificate.now) r)
        → Some reason ≡ first_place (order_law (problem_of (F.arithmetic complex.now.0) complex.now.1 partition.now) (meaning_of certificate.now)))) }
{
    let _complex = complex;
    let _partition = partition;
    let under = &listed[p as usize];
    let own = &lower[p as usize];
    let list = under.as_slice();
    let row = own.as_slice();
    let marks = marks_of(alloc, list, certificate.morse.len())?;
    let still = lower_still(alloc, lower, p as usize)?;
    let words = still.as_slice();
    for q in 0..marks.len() {
        let want = is_next(row, words, q);
        let have = marks[q];
        if have != want {
            return Ok(Some(Reason {
                law: 2,
                part: 0,
                row: p,
                column: q as u32,
                have: have as u64,
                want: want as u64,
            }));
        }
    }
    Ok(None)
}

/// The pairs of the order are the covers of reach.
pub(crate) fn compare_order<F: Field, G: Grading>(
    alloc: Global,
    complex: &Complex<F>,
    partition: &Partition,
    reach: &G,
    certificate: &Certificate,
) -> Result<Option<Reason>, NoMemory>
    requires given { AreGiven (problem_of (F.arithmetic complex.now.0) complex.now.1 partition.now) (meaning_of certificate.now) }
    requires reach { IsReachTest (problem_of (F.arithmetic complex.now.0) complex.now.1 partition.now) (G.cell_count reach.now) (G.is_below reach.now) }
    ensures { IfOk result (λ found. found ≡ first_place (order_law (problem_of (F.arithmetic complex.now.0) complex.now.1 partition.now)
        (meaning_of certificate.now))) }
{
    let listed = listed_under(alloc, certificate)?;
    let lower = lower_sets(alloc, complex, partition, reach, certificate)?;
    let lists = listed.as_slice();
    let rows = lower.as_slice();
    for i in 0..certificate.morse.len() {
        let here = i as u32;
        match compare_order_row(alloc, complex, partition, certificate, lists, rows, here)? {
            Some(reason) => return Ok(Some(reason)),
            None => {}
        }
    }
    Ok(None)
}

//! Which classes count, and their Conley numbers.

ghost use Rattle.std.specs.Prelude.{◌≡◌, ◌⊎◌, ◌<◌, All, IfOk, IfSome, IfNone, true, false, length};
ghost use Rattle.conley_lists.specs.Lists.{items_of};
ghost use Rattle.conley_faces.specs.Face.{IsCellList, IsLocallyClosed};
ghost use Rattle.conley_lefschetz.specs.Conley.{IsRegular, AreConleyNumbers};
ghost use Rattle.conley_transitions.specs.Classes.{AreRecurrenceClasses};
ghost use Rattle.conley_transitions.specs.Flow.{IsFlow};
ghost use Rattle.conley_graph.specs.Decomposition.{flow_of};
ghost use Rattle.conley_morse.specs.Making.{LiesInOnePart, HasTwoParts, AreCountedSoFar};

use crate::NoMemory;
use conley_field::Field;
use conley_homology::{are_zero, numbers};
use conley_lefschetz::Complex;
use conley_mvf::Partition;
use std::alloc::Global;

/// Whether all cells of the class lie in the part of its first.
fn lies_in_one_part(partition: &Partition, class: &[u32]) -> bool
    requires some { 0 < length class.now }
    requires cells { All (λ x. x < length partition.now) class.now }
    ensures one { result ≡ true → LiesInOnePart partition.now class.now }
    ensures two { result ≡ false → HasTwoParts partition.now class.now }
{
    let part = partition.part_of(class[0]);
    for x in class {
        if partition.part_of(*x) != part {
            return false;
        }
    }
    true
}

/// The Conley numbers of a class where it has two parts or isn't regular.
fn numbers_where_counted<F: Field>(
    alloc: Global,
    complex: &Complex<F>,
    partition: &Partition,
    class: &[u32],
) -> Result<Option<Vec<u32>>, NoMemory>
    requires some { 0 < length class.now }
    requires cells { All (λ x. x < length partition.now) class.now }
    requires set { IsCellList complex.now.1.faces class.now }
    requires closed { IsLocallyClosed complex.now.1.faces class.now }
    ensures numbers { IfOk result (λ answer. IfSome answer (λ numbers. AreConleyNumbers (F.arithmetic complex.now.0) complex.now.1 class.now numbers.items)) }
    ensures counted { IfOk result (λ answer. IfSome answer (λ numbers. HasTwoParts partition.now class.now
        ⊎ (LiesInOnePart partition.now class.now × ¬ IsRegular (F.arithmetic complex.now.0) complex.now.1 class.now))) }
    ensures passed { IfOk result (λ answer. IfNone answer (LiesInOnePart partition.now class.now
        × IsRegular (F.arithmetic complex.now.0) complex.now.1 class.now)) }
{
    let numbers = numbers(alloc, complex, class)?;
    if !lies_in_one_part(partition, class) {
        return Ok(Some(numbers));
    }
    if are_zero(&numbers) {
        return Ok(None);
    }
    Ok(Some(numbers))
}

/// The classes that count, in their order, and the Conley numbers of each.
pub(crate) fn counted<F: Field>(
    alloc: Global,
    complex: &Complex<F>,
    partition: &Partition,
    classes: Vec<Vec<u32>>,
) -> Result<(Vec<Vec<u32>>, Vec<Vec<u32>>), NoMemory>
    requires field { IsFlow (flow_of (F.arithmetic complex.now.0) complex.now.1 partition.now) }
    requires classes { AreRecurrenceClasses complex.now.1.faces partition.now (items_of classes.items) }
    ensures { IfOk result (λ p. AreCountedSoFar (F.arithmetic complex.now.0) complex.now.1 partition.now (items_of classes.items) (length classes.items)
        (items_of p.0.items) (items_of p.1.items)) }
{
    let mut sets = Vec::new(alloc);
    let mut numbers = Vec::new(alloc);
    for class in classes {
        if let Some(of_class) = numbers_where_counted(alloc, complex, partition, &class)? {
            sets.push(class)?;
            numbers.push(of_class)?;
        }
    }
    Ok((sets, numbers))
}

//! Recurrence classes.

ghost use Rattle.std.specs.Prelude.{IfOk};
ghost use Rattle.conley_lists.specs.Lists.{items_of};
ghost use Rattle.conley_mvf.specs.Partition.{IsMultivectorField};
ghost use Rattle.conley_transitions.specs.Classes.{AreRecurrenceClasses};

use crate::{NoMemory, transitions};
use conley_faces::Faces;
use conley_lists::gathered;
use conley_mvf::Partition;
use std::alloc::Global;

/// The recurrence classes of a multivector field: the sets of cells that reach each other by its steps.
/// Each ascends, and they stand in the order of their least cells.
pub fn recurrence_classes(
    alloc: Global,
    faces: &Faces,
    partition: &Partition,
) -> Result<Vec<Vec<u32>>, NoMemory>
    requires { IsMultivectorField faces.now partition.now }
    ensures { IfOk result (λ classes. AreRecurrenceClasses faces.now partition.now (items_of classes.items)) }
{
    // The counts bring the laws of the faces and of the digraph.
    let _order = faces.count();
    let digraph = transitions(alloc, faces, partition)?;
    let _heads = digraph.count();
    let class_of = digraph.classes(alloc)?;
    let classes = gathered(alloc, &class_of)?;
    Ok(classes)
}

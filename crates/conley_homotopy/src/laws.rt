//! Laws of graded complexes and of the equivalences between them.

ghost use Rattle.conley_homotopy.specs.Laws.{EquivalencesCompose, PairsAreTakenOut, GradesRestrict, OwnBasesAreRelative};

use conley_field::Field;

/// Two graded chain equivalences one after the other are one, and the identity is one.
pub fn equivalences_compose<F: Field>(field: &F)
    ensures { EquivalencesCompose (F.arithmetic field.now) }
{}

/// A graded complex without two generators of one grade that have an entry is strongly equivalent to the whole.
pub fn pairs_are_taken_out<F: Field>(field: &F)
    ensures { PairsAreTakenOut (F.arithmetic field.now) }
{}

/// In a strict complex that is equivalent to a graded one, the generators of a grade are a basis of homology of its class.
pub fn grades_restrict<F: Field>(field: &F)
    ensures { GradesRestrict (F.arithmetic field.now) }
{}

/// A basis of homology for the cells of a set alone is one for its closure relative to its mouth.
pub fn own_bases_are_relative<F: Field>(field: &F)
    ensures { OwnBasesAreRelative (F.arithmetic field.now) }
{}

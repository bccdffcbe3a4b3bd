//! Laws of steps over all lists of faces, all partitions and all tests of which parts are called regular.

ghost use Rattle.conley_transitions.specs.Laws.{ForEachFlow, ClassesAreMorse, ClassesAreFinest, FinestAreAlike, ReachIsLeast, IsolatedAreUnions, IsolatedHaveNoGap, ClosuresIsolate, EssentialByClass, BetweenIsInvariant, InvariantIsBetween};

/// The recurrence classes that count are the sets of the finest Morse decomposition,
/// and reach between different sets is the least order that serves.
pub fn finest_decomposition()
    ensures morse { ForEachFlow ClassesAreMorse }
    ensures finest { ForEachFlow ClassesAreFinest }
    ensures unique { ForEachFlow FinestAreAlike }
    ensures least { ForEachFlow ReachIsLeast }
{}

/// A set of cells has a closed set that isolates it exactly where it is a union of parts and locally closed:
/// its closure then isolates it.
pub fn isolated_sets()
    ensures needs_parts { ForEachFlow IsolatedAreUnions }
    ensures needs_no_gap { ForEachFlow IsolatedHaveNoGap }
    ensures enough { ForEachFlow ClosuresIsolate }
{}

/// A cell is in the invariant part of a set exactly where, within the set, a walk leads to it from an essential closed
/// walk and one leads from it to one.
pub fn invariant_parts()
    ensures by_class { ForEachFlow EssentialByClass }
    ensures between { ForEachFlow BetweenIsInvariant }
    ensures only { ForEachFlow InvariantIsBetween }
{}

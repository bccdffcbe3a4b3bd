//! Laws of the faults and of the complex.

ghost use Rattle.conley_field.specs.Arithmetic.{Arithmetic};
ghost use Rattle.conley_simplicial.specs.Fault.{FirstFaultIsOne};
ghost use Rattle.conley_simplicial.specs.Simplicial.{SimplicialComplexIsOne};

/// At most one fault is the first: its number and its place tell the rest of it.
pub fn first_fault_is_one()
    ensures { FirstFaultIsOne }
{}

/// At most one complex is that of vertices and listed simplices.
pub fn complex_of_simplices_is_one()
    ensures { (F : Arithmetic) → SimplicialComplexIsOne F }
{}

//! A law of refusals.

ghost use Rattle.conley_mvf.specs.Fault.{FirstFaultIsOne};

/// At most one fault of lists is the first: its number and its place tell the rest of it.
pub fn first_fault_is_one()
    ensures { FirstFaultIsOne }
{}

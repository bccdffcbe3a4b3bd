//! A law of reports.

ghost use Rattle.conley_field.specs.Arithmetic.{Arithmetic, IsField};
ghost use Rattle.conley_lefschetz.specs.Complex.{Layout};
ghost use Rattle.conley_isolation.specs.Report.{ReportIsOne};

/// At most one report is that of a set: its invariant part, whether it is isolated, and its index.
pub fn report_is_one()
    ensures { (F : Arithmetic) (c : Layout) → IsField F → ReportIsOne F c }
{}

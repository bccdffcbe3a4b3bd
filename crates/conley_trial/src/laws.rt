//! Laws of the candidates and of the problem.

ghost use Rattle.conley_trial.specs.Candidates.{CandidatesAreAsSaid};
ghost use Rattle.conley_trial.specs.Trial.{TrialProblemIsOne};

/// In each complex the computed candidates of a cell are the free squares that it is a face of, where it is a vertex and 8 divides the
/// number that was drawn, and else the free cells of one dimension more with an incidence to it.
pub fn candidates_are_as_said()
    ensures { CandidatesAreAsSaid }
{}

/// At most one problem is made for a number.
pub fn trial_problem_is_one()
    ensures { TrialProblemIsOne }
{}

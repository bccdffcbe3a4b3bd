//! Laws of what is due.

ghost use Rattle.std.specs.Prelude.{◌≡◌, ℕ, List, Option, Some};
ghost use Rattle.conley_tool.specs.Words.{Command};
ghost use Rattle.conley_tool.specs.Due.{Due};
ghost use Rattle.conley_tool.specs.Alike.{AreAlike};
ghost use Rattle.conley_tool.specs.Headline.{IsDue, Analyzes};

/// For words and told files at most one thing is due, but for `analyze` and `trial`. So the clauses of `run` leave one outcome and one text there, memory and
/// faults apart. For these two, things that are due are equal, or both are texts of analyses of one problem, or both are summaries of such analyses.
pub fn one_is_due()
    ensures one { (file_of : List ℕ → Option (List ℕ)) (command : Option Command) → ¬ Analyzes command → (a b : Due) → IsDue (Some file_of) command a
        → IsDue (Some file_of) command b → a ≡ b }
    ensures alike { (file_of : List ℕ → Option (List ℕ)) (command : Option Command) (a b : Due) → IsDue (Some file_of) command a
        → IsDue (Some file_of) command b → AreAlike a b }
{}

ghost use Rattle.std.specs.Prelude.{◌≡◌, ℕ, List};
ghost use Rattle.conley_algebra.specs.Entries.{SameEntries};
ghost use Rattle.conley_chains.specs.Chain.{coefficient, IsChain};
ghost use Rattle.conley_chains.specs.Matrix.{Table, entry, column_count, AreColumns};

/// Two chains with the same code at every place are one.
pub fn equal_codes_make_one_chain()
    ensures { (a b : List (ℕ × ℕ)) → IsChain a → IsChain b → ((place : ℕ) → coefficient a place ≡ coefficient b place) → a ≡ b }
{}

/// Two matrices of one size with the same entry at every place are one.
pub fn equal_entries_make_one_matrix()
    ensures { (s t : Table) → AreColumns s.rows s.columns → AreColumns t.rows t.columns →
        s.rows ≡ t.rows → column_count s ≡ column_count t → SameEntries (entry s) (entry t) → s ≡ t }
{}

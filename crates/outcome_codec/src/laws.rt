ghost use Rattle.std.specs.Prelude.{◌≡◌, List, ℕ, ◌++◌};
ghost use Rattle.record_parts.specs.Spelling.{many, AreSpelled};
ghost use Rattle.mutations.specs.declared.results.WriteResult.{WriteResult as AResult};
ghost use Rattle.outcome_codec.specs.declared.parts.KeyedEntry.{KeyedEntry as AnEntry};
ghost use Rattle.outcome_codec.specs.declared.parts.PointRow.{PointRow as ARow};
ghost use Rattle.outcome_codec.specs.Spelling.{result as spelled, keyed, row, AreSpelledEntries, AreSpelledRows, IsSpelledResult};

/// No spelling of results, of entries or of rows begins another's, whatever follows either. Nothing is done when it runs.
pub fn no_front()
    ensures results { (a b : List AResult) (x y : List ℕ) → AreSpelled IsSpelledResult a
        → AreSpelled IsSpelledResult b → many spelled a ++ x ≡ many spelled b ++ y → (a ≡ b) × (x ≡ y) }
    ensures entries { (a b : List AnEntry) (x y : List ℕ) → AreSpelledEntries a
        → AreSpelledEntries b → many keyed a ++ x ≡ many keyed b ++ y → (a ≡ b) × (x ≡ y) }
    ensures rows { (a b : List ARow) (x y : List ℕ) → AreSpelledRows a → AreSpelledRows b
        → many row a ++ x ≡ many row b ++ y → (a ≡ b) × (x ≡ y) }
{}

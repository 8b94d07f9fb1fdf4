ghost use Rattle.std.specs.Prelude.{◌≡◌, List, ℕ, ◌++◌};
ghost use Rattle.record_codec.specs.declared.commit.Commit.{Commit as CommitData};
ghost use Rattle.record_codec.specs.Spelling.{spelling, HasSpelling};

/// Commits that have one spelling are one commit. Nothing is done when it runs.
pub fn one_commit()
    ensures { (a b : CommitData) → HasSpelling a → HasSpelling b → spelling a ≡ spelling b → a ≡ b }
{}

/// No commit's spelling begins another's, whatever follows either. Nothing is done when it runs.
pub fn no_front()
    ensures { (a b : CommitData) (x y : List ℕ) → HasSpelling a → HasSpelling b
        → spelling a ++ x ≡ spelling b ++ y → (a ≡ b) × (x ≡ y) }
{}

ghost use Rattle.std.specs.Prelude.{◌≡◌, List, ℕ, ◌++◌};
ghost use Rattle.queries.specs.declared.target.Target.{Target as ATarget};
ghost use Rattle.target_codec.specs.Spelling.{target, IsSpelledTarget};

/// No target's spelling begins another's, whatever follows either; so targets of one spelling are one. Nothing is done when it
/// runs.
pub fn no_front()
    ensures { (a b : ATarget) (x y : List ℕ) → IsSpelledTarget a → IsSpelledTarget b
        → target a ++ x ≡ target b ++ y → (a ≡ b) × (x ≡ y) }
{}

//! The law of readings. The function does nothing: its contract is the law.

ghost use Rattle.std.specs.Prelude.{◌≡◌};
ghost use Rattle.host_api.specs.Items.{Item};
ghost use Rattle.document_keys.specs.Names.{Root};
ghost use Rattle.line_reader.specs.Reading.{Reads};
ghost use Rattle.line_reader.specs.declared.reading.Reading.{Reading};

/// An item of a source has one reading. Nothing is done when it runs.
pub fn one_reading()
    ensures { (root : Root) (item : Item) (a b : Reading) → Reads root item a → Reads root item b → a ≡ b }
{}

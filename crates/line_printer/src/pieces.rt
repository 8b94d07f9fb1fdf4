//! Members of lines that are put piece by piece.

ghost use Rattle.std.specs.Prelude.{◌∷◌, [], decimal, OnOk};
ghost use Rattle.json.specs.Token.{key, number, boolean};
ghost use Rattle.json_text.specs.Puts.{Adds};

use json::Writer;
use std::alloc::AllocError;

/// A number without sign.
pub(crate) fn put_count(out: &mut Writer, name: &str, count: u64) -> Result<(), AllocError>
    ensures { OnOk result (Adds out.old out.new (key name.now ∷ number (decimal count) ∷ [])) }
{
    out.key(name)?;
    out.u64(count)
}

/// Whether something is so.
pub(crate) fn put_flag(out: &mut Writer, name: &str, is: bool) -> Result<(), AllocError>
    ensures { OnOk result (Adds out.old out.new (key name.now ∷ boolean is ∷ [])) }
{
    out.key(name)?;
    out.boolean(is)
}

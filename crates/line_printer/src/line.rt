ghost use Rattle.std.specs.Prelude.{◌≡◌, [], ◌∷◌, ◌++◌, false, IfOk};
ghost use Rattle.std.specs.String.{string_bytes};
ghost use Rattle.json.specs.Token.{end_object};
ghost use Rattle.json.specs.Print.{print};
ghost use Rattle.serde_json.specs.View.{view};
ghost use Rattle.serde_json.specs.Written.{has_float};
ghost use Rattle.line_printer.specs.Begun.{IsBegun};
ghost use Rattle.line_printer.specs.Lines.{line_of};

use document_keys::NoMemory;
use json::Writer;
use serde_json::Value as Json;
use std::alloc::Global;

/// The room that a line begins with: most need no more.
const USUAL_LINE: usize = 128;

/// The tree as a line, with its newline.
#[tactic(auto, unfolding(crate::specs::Lines::line_of))]
pub(crate) fn print_line(alloc: Global, json: &Json) -> Result<String, NoMemory>
    requires { has_float (view json.now) ≡ false }
    ensures { IfOk result (λ line. string_bytes line ≡ line_of (view json.now)) }
{
    let mut line = json.to_string(alloc)?;
    line.push('\n')?;
    Ok(line)
}

/// A line that is put piece by piece, with the name of its one member.
pub(crate) fn begin_line(alloc: Global, name: &str) -> Result<Writer, NoMemory>
    ensures { IfOk result (λ out. IsBegun name.now out) }
{
    let mut out = Writer::new(Vec::with_capacity(alloc, USUAL_LINE)?);
    out.begin_object()?;
    out.key(name)?;
    Ok(out)
}

/// The text of the line, whose member has its value, with its newline.
pub(crate) fn end_line(mut out: Writer) -> Result<String, NoMemory>
    requires { out.before ≡ [] }
    ensures { IfOk result (λ line. string_bytes line
        ≡ print (out.tokens ++ end_object ∷ []) ++ 10 ∷ []) }
{
    out.end_object()?;
    let mut line = String::from_utf8(out.into_inner()).unwrap();
    line.push('\n')?;
    Ok(line)
}

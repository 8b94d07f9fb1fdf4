//! How the names of a field path are spelled: read from a text, and written.

ghost use Rattle.std.specs.Prelude.{◌≡◌, ◌≢◌, ◌++◌, List, ℕ, IfOk, IfErr, OnOk};
ghost use Rattle.std.specs.String.{string_bytes};
ghost use Rattle.std.specs.List.{list_all};
ghost use Rattle.document_keys.specs.Paths.{is_name_start, is_name_part, is_plain, is_escaped, quoted, printed_name, SpellsPath};
ghost use Rattle.document_keys.specs.Reader.{step};

use crate::faults::{FieldFault, NoMemory};
use crate::text::Text;
use std::alloc::Global;

/// Where the reader stands.
#[derive(Clone, Copy, Debug)]
pub(crate) enum Place {
    /// Before a name.
    Start,
    /// In a plain name.
    Plain,
    /// Between backticks.
    Quoted,
    /// Between backticks, after a backslash.
    Escaped,
    /// After the closing backtick.
    Closed,
}

/// What the reader does at a character.
#[derive(Clone, Copy, Debug)]
pub(crate) enum Step {
    /// It goes on.
    Enter(Place),
    /// The character belongs to the name, and it goes on.
    Push(Place),
    /// The name is whole, and another follows.
    Finish,
    /// The text isn't a path.
    Stop,
}

fn starts_name(c: char) -> bool
    ensures { result ≡ is_name_start c }
{
    c.is_ascii_alphabetic() || c == '_'
}

fn continues_name(c: char) -> bool
    ensures { result ≡ is_name_part c }
{
    c.is_ascii_alphanumeric() || c == '_'
}

fn needs_backslash(c: char) -> bool
    ensures { result ≡ is_escaped c }
{
    c == '`' || c == '\\'
}

fn next_step(place: Place, c: char) -> Step
    ensures { result ≡ step place c }
{
    match place {
        Place::Start if c == '`' => Step::Enter(Place::Quoted),
        Place::Start if starts_name(c) => Step::Push(Place::Plain),
        Place::Plain if c == '.' => Step::Finish,
        Place::Plain if continues_name(c) => Step::Push(Place::Plain),
        Place::Quoted if c == '\\' => Step::Enter(Place::Escaped),
        Place::Quoted if c == '`' => Step::Enter(Place::Closed),
        Place::Quoted => Step::Push(Place::Quoted),
        Place::Escaped if needs_backslash(c) => Step::Push(Place::Quoted),
        Place::Closed if c == '.' => Step::Finish,
        _ => Step::Stop,
    }
}

/// The names that the text spells.
///
/// # Errors
/// `BadPath` where it spells none, or `NoMemory`.
pub(crate) fn read_names(alloc: Global, text: &str) -> Result<Vec<Text>, FieldFault>
    ensures names { IfOk result (λ names. SpellsPath text.now names.items) }
    ensures fault { IfErr result (λ fault. fault ≢ FieldFault.NoMemory
        → (fault ≡ FieldFault.BadPath) × ((names : List (List ℕ)) → ¬ (SpellsPath text.now names))) }
{
    // most paths have one name
    let mut names = Vec::with_capacity(alloc, 1)?;
    let mut name = String::new(alloc);
    let mut place = Place::Start;
    for c in text.chars() {
        match next_step(place, c) {
            Step::Enter(next) => place = next,
            Step::Push(next) => {
                name.push(c)?;
                place = next;
            }
            Step::Finish => {
                let whole = Text::from_str(alloc, name.as_str())?;
                names.push(whole)?;
                name.clear();
                place = Place::Start;
            }
            Step::Stop => return Err(FieldFault::BadPath),
        }
    }
    match place {
        Place::Plain | Place::Closed => {
            let last = Text::from_str(alloc, name.as_str())?;
            names.push(last)?;
            Ok(names)
        }
        _ => Err(FieldFault::BadPath),
    }
}

fn all_continue_name(bytes: &[u8]) -> bool
    ensures { result ≡ list_all is_name_part bytes.now }
{
    bytes
        .iter()
        .all(|byte| byte.is_ascii_alphanumeric() || *byte == b'_')
}

/// Whether the name may stand plain.
fn is_plain(name: &str) -> bool
    ensures { result ≡ is_plain name.now }
{
    match name.as_bytes().split_first() {
        Some((first, others)) => {
            if first.is_ascii_alphabetic() || *first == b'_' {
                return all_continue_name(others);
            }
            false
        }
        None => false,
    }
}

/// Appends the name between backticks.
fn quote_name(text: &mut String, name: &str) -> Result<(), NoMemory>
    ensures { OnOk result (string_bytes text.new ≡ string_bytes text.old ++ quoted name.now) }
{
    text.push('`')?;
    for c in name.chars() {
        if needs_backslash(c) {
            text.push('\\')?;
        }
        text.push(c)?;
    }
    text.push('`')?;
    Ok(())
}

/// Appends the name, plain where it may stand so, else between backticks.
pub(crate) fn print_name(text: &mut String, name: &str) -> Result<(), NoMemory>
    ensures { OnOk result (string_bytes text.new ≡ string_bytes text.old ++ printed_name name.now) }
{
    if is_plain(name) {
        text.push_str(name)?;
        Ok(())
    } else {
        quote_name(text, name)
    }
}

ghost use Rattle.std.specs.Prelude.{◌≡◌, ◌++◌, OnOk, IfSome};
ghost use Rattle.record_parts.specs.Spelling.{path, many, opt, AreSpelled, IsNameText, IsSpelledPath};
ghost use Rattle.record_parts.specs.Reading.{Reads};

use crate::fault::ReadError;
use crate::names::{TEXT, name_of};
use crate::numbers::{byte_of, room_for, u64_of};
use crate::writing::{put_number, put_text};
use document_keys::{FieldPath, NoMemory, Text};
use mutations::Mask;
use std::alloc::Global;

/// How many names a path has at most.
const MOST: usize = 21;

/// How many bytes a path spells at least.
const PATH: usize = 17;

/// The byte that stands for no mask.
const ABSENT: u8 = 0;

/// The byte that begins a mask.
const PRESENT: u8 = 1;

/// Names of fields, as many as the number before them says, and what follows them.
fn names_of(alloc: Global, bytes: &[u8]) -> Result<(Vec<Text>, &[u8]), ReadError>
    ensures { Reads path (AreSpelled IsNameText) bytes.now (λ x. (x.0.items, x.1.now)) result }
{
    let (count, start) = u64_of(bytes)?;
    let mut names = Vec::with_capacity(alloc, room_for(count, start, TEXT))?;
    let mut rest = start;
    for _ in 0..count {
        let (name, next) = name_of(alloc, rest)?;
        names.push(name)?;
        rest = next;
    }
    Ok((names, rest))
}

/// A path of 1 to 21 names of fields, and what follows it.
pub fn path_of(alloc: Global, bytes: &[u8]) -> Result<(FieldPath, &[u8]), ReadError>
    ensures { Reads path IsSpelledPath bytes.now (λ x. (x.0, x.1.now)) result }
{
    let (names, rest) = names_of(alloc, bytes)?;
    if names.len() > MOST {
        return Err(ReadError::NotSpelled);
    }
    match FieldPath::from_names(names) {
        Ok(path) => Ok((path, rest)),
        Err(_) => Err(ReadError::NotSpelled),
    }
}

/// Paths, as many as the number before them says, and what follows them.
fn paths_of(alloc: Global, bytes: &[u8]) -> Result<(Vec<FieldPath>, &[u8]), ReadError>
    ensures { Reads (many path) (AreSpelled IsSpelledPath) bytes.now (λ x. (x.0.items, x.1.now)) result }
{
    let (count, start) = u64_of(bytes)?;
    let mut paths = Vec::with_capacity(alloc, room_for(count, start, PATH))?;
    let mut rest = start;
    for _ in 0..count {
        let (path, next) = path_of(alloc, rest)?;
        paths.push(path)?;
        rest = next;
    }
    Ok((paths, rest))
}

/// A mask or none, and what follows it.
pub fn mask_of(alloc: Global, bytes: &[u8]) -> Result<(Option<Mask>, &[u8]), ReadError>
    ensures { Reads (opt (many path)) (λ mask. IfSome mask (AreSpelled IsSpelledPath)) bytes.now
        (λ x. (x.0, x.1.now)) result }
{
    let (byte, rest) = byte_of(bytes)?;
    match byte {
        ABSENT => Ok((None, rest)),
        PRESENT => {
            let (paths, rest) = paths_of(alloc, rest)?;
            Ok((Some(Mask::from_vec(paths)), rest))
        }
        _ => Err(ReadError::NotSpelled),
    }
}

/// Appends the path's spelling.
pub fn put_path(out: &mut Vec<u8>, content: &FieldPath) -> Result<(), NoMemory>
    ensures { OnOk result (out.new.items ≡ out.old.items ++ path content.now) }
{
    let count = content.len();
    put_number(out, count)?;
    for i in 0..count {
        if let Some(name) = content.segment(i) {
            put_text(out, name)?;
        }
    }
    Ok(())
}

fn put_paths(out: &mut Vec<u8>, paths: &[FieldPath]) -> Result<(), NoMemory>
    ensures { OnOk result (out.new.items ≡ out.old.items ++ many path paths.now) }
{
    put_number(out, paths.len() as u64)?;
    for path in paths {
        put_path(out, path)?;
    }
    Ok(())
}

/// Appends the spelling of the mask, or of none.
pub fn put_mask(out: &mut Vec<u8>, mask: &Option<Mask>) -> Result<(), NoMemory>
    ensures { OnOk result (out.new.items ≡ out.old.items ++ opt (many path) mask.now) }
{
    match mask {
        None => out.push(ABSENT)?,
        Some(mask) => {
            out.push(PRESENT)?;
            put_paths(out, mask.as_slice())?;
        }
    }
    Ok(())
}

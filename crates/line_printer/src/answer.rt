//! The answers of writes, listens and unlistens.

ghost use Rattle.std.specs.Prelude.{◌≡◌, ◌∷◌, [], codes, IfOk, OnOk};
ghost use Rattle.std.specs.String.{string_bytes};
ghost use Rattle.json.specs.Token.{key, number as number_token};
ghost use Rattle.serde_json.specs.Data.{number};
ghost use Rattle.serde_json.specs.Find.{of_integer};
ghost use Rattle.serde_json.specs.Written.{number_text};
ghost use Rattle.json_text.specs.Puts.{Adds, Puts};
ghost use Rattle.line_printer.specs.Lines.{line_of, count, ok_tree, listening_tree, unlistened_tree};
ghost use Rattle.line_printer.specs.Trees.{two, three};

use crate::line::{begin_line, end_line};
use crate::pieces::put_count;
use document_keys::NoMemory;
use json::Writer;
use std::alloc::{AllocError, Global};

fn put_wrote(out: &mut Writer, batch: u64, commit: u64) -> Result<(), AllocError>
    ensures { Puts result out.old out.new
        (two (codes "batch") (count batch) (codes "commit") (count commit)) }
{
    out.begin_object()?;
    put_count(out, "batch", batch)?;
    put_count(out, "commit", commit)?;
    out.end_object()
}

/// The answer of a write: the ids of its batch and of its commit.
///
/// # Errors
/// `NoMemory`
pub fn print_wrote(alloc: Global, batch: u64, commit: u64) -> Result<String, NoMemory>
    ensures { IfOk result (λ line. string_bytes line ≡ line_of (ok_tree batch commit)) }
{
    let mut out = begin_line(alloc, "ok")?;
    put_wrote(&mut out, batch, commit)?;
    end_line(out)
}

fn put_target(out: &mut Writer, target: i32) -> Result<(), AllocError>
    ensures { OnOk result (Adds out.old out.new
        (key (codes "targetId") ∷ number_token (number_text (of_integer target)) ∷ [])) }
{
    out.key("targetId")?;
    out.i64(target as i64)
}

fn put_listening(out: &mut Writer, id: u32, target: i32, commit: u64) -> Result<(), AllocError>
    ensures { Puts result out.old out.new
        (three (codes "commit") (count commit) (codes "id") (count id)
        (codes "targetId") (number (of_integer target))) }
{
    out.begin_object()?;
    put_count(out, "commit", commit)?;
    put_count(out, "id", id as u64)?;
    put_target(out, target)?;
    out.end_object()
}

/// The answer of a listen: the id of the listener and the one of its target, and the store's number.
///
/// # Errors
/// `NoMemory`
pub fn print_listening(alloc: Global, id: u32, target: i32, commit: u64) -> Result<String, NoMemory>
    ensures { IfOk result (λ line. string_bytes line ≡ line_of (listening_tree id target commit)) }
{
    let mut out = begin_line(alloc, "ok")?;
    put_listening(&mut out, id, target, commit)?;
    end_line(out)
}

fn put_unlistened(out: &mut Writer, id: u32, commit: u64) -> Result<(), AllocError>
    ensures { Puts result out.old out.new
        (two (codes "commit") (count commit) (codes "id") (count id)) }
{
    out.begin_object()?;
    put_count(out, "commit", commit)?;
    put_count(out, "id", id as u64)?;
    out.end_object()
}

/// The answer of an unlisten: the id of the listener, and the store's number.
///
/// # Errors
/// `NoMemory`
pub fn print_unlistened(alloc: Global, id: u32, commit: u64) -> Result<String, NoMemory>
    ensures { IfOk result (λ line. string_bytes line ≡ line_of (unlistened_tree id commit)) }
{
    let mut out = begin_line(alloc, "ok")?;
    put_unlistened(&mut out, id, commit)?;
    end_line(out)
}

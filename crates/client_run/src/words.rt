ghost use Rattle.std.specs.Prelude.{◌≡◌, ◌≢◌, ◌↔◌, [], ◌∷◌, length, map, codes, IsTrue, IfOk, MatchOption};
ghost use Rattle.std.specs.String.{string_bytes};
ghost use Rattle.document_keys.specs.Names.{Root, IsRoot, root_text};
ghost use Rattle.client_run.specs.Words.{AsksRun, IsFolder, default_root, folder_in};

use document_keys::{Database, NameFault, NoMemory, Segment};
use std::alloc::{AllocError, Global};

/// Whether the word is a folder: not empty, and without `-` at its front.
fn is_folder(word: &str) -> bool
    ensures { IsTrue result ↔ IsFolder word.now }
{
    let folder = word.as_bytes();
    if folder.is_empty() {
        return false;
    }
    folder[0] != b'-'
}

/// Whether the first two words are those of a run.
fn begin_run(command: &str, folder: &str) -> bool
    ensures { IsTrue result ↔ ((command.now ≡ codes "run") × IsFolder folder.now) }
{
    if command != "run" {
        return false;
    }
    is_folder(folder)
}

/// `projects/demo/databases/(default)`
fn default_database(alloc: Global) -> Result<Database, NoMemory>
    ensures { IfOk result (λ database. database ≡ default_root) }
{
    let Ok(project) = Segment::read(alloc, "demo") else {
        return Err(NoMemory);
    };
    let Ok(name) = Segment::read(alloc, "(default)") else {
        return Err(NoMemory);
    };
    Database::from_segments(alloc, project, name)
}

/// The database of that name, if it is the name of one.
fn named_database(alloc: Global, text: &str) -> Result<Option<Database>, NoMemory>
    ensures { IfOk result (λ found. MatchOption found
        ((root : Root) → ¬ (IsRoot root × (text.now ≡ root_text root)))
        (λ root. IsRoot root × (text.now ≡ root_text root))) }
{
    match Database::read(alloc, text) {
        Ok(database) => Ok(Some(database)),
        Err(NameFault::NoMemory) => Err(NoMemory),
        Err(NameFault::WrongRoot) => Ok(None),
        Err(NameFault::BadSegment) => Ok(None),
        Err(NameFault::OddLength) => Ok(None),
    }
}

/// The words, where there are two.
fn two_words(words: &[String]) -> Option<(&str, &str)>
    ensures { MatchOption result (length words.now ≢ 2)
        (λ two. map string_bytes words.now ≡ two.0.now ∷ two.1.now ∷ []) }
{
    let [first, second] = words else {
        return None;
    };
    Some((first.as_str(), second.as_str()))
}

/// The words, where there are three.
fn three_words(words: &[String]) -> Option<(&str, &str, &str)>
    ensures { MatchOption result (length words.now ≢ 3)
        (λ three. map string_bytes words.now ≡ three.0.now ∷ three.1.now ∷ three.2.now ∷ []) }
{
    let [first, second, third] = words else {
        return None;
    };
    Some((first.as_str(), second.as_str(), third.as_str()))
}

/// The database of a run, where the words are `run DIR` or `run DIR DATABASE`: DIR isn't empty and doesn't begin with `-`,
/// DATABASE is `projects/{project}/databases/{database}`, and `projects/demo/databases/(default)` where it is left out.
///
/// # Errors
/// `NoMemory`
pub fn asked_database(alloc: Global, words: &[String]) -> Result<Option<Database>, NoMemory>
    ensures { IfOk result (λ found. MatchOption found
        ((root : Root) → ¬ (AsksRun (map string_bytes words.now) root))
        (λ root. AsksRun (map string_bytes words.now) root)) }
{
    if let Some((command, folder)) = two_words(words) {
        if !begin_run(command, folder) {
            return Ok(None);
        }
        return Ok(Some(default_database(alloc)?));
    }
    let Some((command, folder, database)) = three_words(words) else {
        return Ok(None);
    };
    if !begin_run(command, folder) {
        return Ok(None);
    }
    named_database(alloc, database)
}

/// The folder that the words name: the second one, or else nothing.
///
/// # Errors
/// `AllocError` where no memory was found for it.
pub fn folder_of(alloc: Global, words: &[String]) -> Result<String, AllocError>
    ensures { IfOk result (λ folder. string_bytes folder ≡ folder_in (map string_bytes words.now)) }
{
    match words {
        [_, folder, ..] => String::from_str(alloc, folder.as_str()),
        _ => Ok(String::new(alloc)),
    }
}

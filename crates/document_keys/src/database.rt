ghost use Rattle.std.specs.Prelude.{◌≡◌, IfOk, IfErr, MatchOption};
ghost use Rattle.document_keys.specs.Names.{Root, IsRoot, root_text};
ghost use Rattle.document_keys.specs.Faults.{HasRootFault, IsRootOfParts};

use crate::faults::{NameFault, NoMemory};
use crate::path::after;
use crate::segment::{Segment, is_part};
use std::alloc::Global;
use std::marker::Model;

/// The name of a database, `projects/{project}/databases/{name}`. Contracts see it as the record of its two segments.
#[derive(Debug, Drop)]
pub struct Database {
    project: Segment,
    name: Segment,
    // the whole name, with which each name of a document begins
    root: String,
}

impl Model for Database {
    ghost use Rattle.std.specs.Prelude.{◌≡◌};
    ghost use Rattle.std.specs.String.{string_bytes};
    ghost use Rattle.document_keys.specs.Names.{Root, IsRoot, root_text};

    ghost Value = { Root };

    ghost view = { λ d. record { project = d.project; name = d.name } };

    ghost invariant = { λ d.
        (string_bytes d.root ≡ root_text (record { project = d.project; name = d.name }))
        × IsRoot (record { project = d.project; name = d.name }) };
}

/// The project and the database's own name of a text that is `projects/`, a part, `/databases/` and a part.
fn cut_root(text: &str) -> Option<(&str, &str)>
    ensures { MatchOption result ((root : Root) → ¬ (IsRootOfParts text.now root))
        (λ parts. IsRootOfParts text.now (record { project = parts.0.now; name = parts.1.now })) }
{
    let rest = after(text, "projects/")?;
    let (project, rest) = rest.split_once('/')?;
    let name = after(rest, "databases/")?;
    if !is_part(name) {
        return None;
    }
    Some((project, name))
}

impl Database {
    /// The database of two segments.
    ///
    /// # Errors
    /// `NoMemory`
    #[tactic(auto, unfolding(crate::specs::Names::root_text))]
    pub fn from_segments(
        alloc: Global,
        project: Segment,
        name: Segment,
    ) -> Result<Database, NoMemory>
        ensures { IfOk result (λ database. database ≡ record { project = project; name = name }) }
    {
        let mut root = String::from_str(alloc, "projects/")?;
        root.push_str(project.as_str())?;
        root.push_str("/databases/")?;
        root.push_str(name.as_str())?;
        Ok(Database {
            project,
            name,
            root,
        })
    }

    /// The database whose name is the text.
    ///
    /// # Errors
    /// `WrongRoot` where the text, cut at each `/`, isn't four parts of which the first is `projects` and the third
    /// `databases`, else `BadSegment` where the second or the fourth isn't a segment; or `NoMemory`.
    pub fn read(alloc: Global, text: &str) -> Result<Database, NameFault>
        ensures database { IfOk result (λ database. IsRoot database × (text.now ≡ root_text database)) }
        ensures fault { IfErr result (λ fault. HasRootFault text.now fault) }
    {
        let (project, name) = cut_root(text).ok_or(NameFault::WrongRoot)?;
        let project = Segment::read(alloc, project)?;
        let name = Segment::read(alloc, name)?;
        Ok(Database::from_segments(alloc, project, name)?)
    }

    /// The database's name, `projects/{project}/databases/{name}`, lent.
    pub fn as_str(&self) -> &str
        ensures text { result.now ≡ root_text self.now }
        ensures root { IsRoot self.now }
    {
        self.root.as_str()
    }

    /// The segment of the project, lent.
    pub fn project(&self) -> &Segment
        ensures { result.now ≡ self.now.project }
    {
        &self.project
    }

    /// The segment of the database's own name, lent.
    pub fn name(&self) -> &Segment
        ensures { result.now ≡ self.now.name }
    {
        &self.name
    }

    /// A copy.
    ///
    /// # Errors
    /// `NoMemory`
    pub fn copy(&self, alloc: Global) -> Result<Database, NoMemory>
        ensures { IfOk result (λ database. database ≡ self.now) }
    {
        let project = self.project.copy(alloc)?;
        let name = self.name.copy(alloc)?;
        Database::from_segments(alloc, project, name)
    }
}

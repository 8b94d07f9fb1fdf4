ghost use Rattle.std.specs.Prelude.{◌≡◌, IfOk};

use crate::target::Target;
use document_keys::NoMemory;
use std::alloc::Global;
use value_model::Bytes;

/// A request on a watch stream: it adds a target under an id, from a point on where one was kept, or takes the target of an
/// id away.
#[derive(Debug, Drop)]
pub enum ListenRequest {
    Add {
        id: i32,
        target: Target,
        resume: Option<Resume>,
    },
    Remove {
        id: i32,
    },
}

/// The point from which a target goes on: the token that the backend gave for it, and how many documents the target had
/// then.
#[derive(Debug, Drop)]
pub struct Resume {
    pub token: Bytes,
    pub expected_count: u64,
}

impl Resume {
    /// A copy.
    ///
    /// # Errors
    /// `NoMemory`
    pub fn copy(&self, alloc: Global) -> Result<Resume, NoMemory>
        ensures { IfOk result (λ resume. resume ≡ self.now) }
    {
        Ok(Resume {
            token: self.token.copy(alloc)?,
            expected_count: self.expected_count,
        })
    }
}

/// A copy of the point, where there is one.
fn copy_resume(alloc: Global, resume: &Option<Resume>) -> Result<Option<Resume>, NoMemory>
    ensures { IfOk result (λ copy. copy ≡ resume.now) }
{
    match resume {
        None => Ok(None),
        Some(resume) => Ok(Some(resume.copy(alloc)?)),
    }
}

impl ListenRequest {
    /// A copy.
    ///
    /// # Errors
    /// `NoMemory`
    pub fn copy(&self, alloc: Global) -> Result<ListenRequest, NoMemory>
        ensures { IfOk result (λ request. request ≡ self.now) }
    {
        match self {
            ListenRequest::Add { id, target, resume } => Ok(ListenRequest::Add {
                id: *id,
                target: target.copy(alloc)?,
                resume: copy_resume(alloc, resume)?,
            }),
            ListenRequest::Remove { id } => Ok(ListenRequest::Remove { id: *id }),
        }
    }
}

//! Copies of documents and of messages.

use crate::fixtures::{key, time};
use document_keys::Text;
use std::alloc::Global;
use std::process::Abort;
use std::test::Fail;
use value_model::{
    Bytes, ChangeKind, Document, DocumentChange, DocumentDelete, DocumentRemove, Entry, Fields,
    ListenResponse, RpcStatus, SharedFields, TargetChange, TargetIds,
};

fn ids(alloc: Global, ids: &[i32]) -> Result<TargetIds, Fail> {
    Ok(TargetIds::from_vec(ids.to_vec(alloc)?))
}

#[test]
fn copied_document(rt: HostRuntime) -> Result<(), Fail> {
    let document = Document {
        fields: SharedFields::new(rt.alloc(), Fields::new(rt.alloc()))?,
        update_time: Some(time(5)),
    };
    let copy = document.copy()?;
    assert!(rt; copy.update_time == Some(time(5)));
    Ok(())
}

#[test]
fn copied_entry(rt: HostRuntime) -> Result<(), Fail> {
    let entry = Entry::Found(Fields::new(rt.alloc()), time(5));
    let copy = entry.copy(rt.alloc())?;
    assert!(rt;
        match &copy {
            Entry::Found(fields, version) => fields.len() == 0 && *version == time(5),
            _ => false,
        }
    );
    Ok(())
}

// a change that removes the target 2
fn removal(alloc: Global) -> Result<TargetChange, Fail> {
    let message = Text::from_str(alloc, "gone")?;
    let target_ids = ids(alloc, &[2])?;
    Ok(TargetChange {
        kind: ChangeKind::Remove,
        target_ids,
        cause: Some(RpcStatus { code: 5, message }),
        resume_token: Bytes::from_vec(Vec::new(alloc)),
        read_time: None,
    })
}

fn is_removal(message: &ListenResponse) -> bool {
    match message {
        ListenResponse::Target(change) => {
            change.kind == ChangeKind::Remove
                && change.target_ids.as_slice() == [2].as_slice()
                && change.cause.is_some()
        }
        _ => false,
    }
}

fn check_removal(rt: &(impl Abort + AllocGlobal), message: &ListenResponse) -> Result<(), Fail> {
    let copy = message.copy(rt.alloc())?;
    assert!(rt; is_removal(&copy));
    Ok(())
}

#[test]
fn targets(rt: HostRuntime) -> Result<(), Fail> {
    let message = ListenResponse::Target(removal(rt.alloc())?);
    check_removal(&rt, &message)
}

fn change(alloc: Global) -> Result<DocumentChange, Fail> {
    let key = key(alloc, &["rooms", "a"])?;
    let target_ids = ids(alloc, &[2])?;
    let removed_target_ids = ids(alloc, &[4])?;
    Ok(DocumentChange {
        key,
        fields: Fields::new(alloc),
        update_time: time(5),
        target_ids,
        removed_target_ids,
    })
}

fn is_change(message: &ListenResponse) -> bool {
    match message {
        ListenResponse::Change(change) => change.removed_target_ids.as_slice() == [4].as_slice(),
        _ => false,
    }
}

fn check_change(rt: &(impl Abort + AllocGlobal), message: &ListenResponse) -> Result<(), Fail> {
    let copy = message.copy(rt.alloc())?;
    assert!(rt; is_change(&copy));
    Ok(())
}

#[test]
fn changes(rt: HostRuntime) -> Result<(), Fail> {
    let message = ListenResponse::Change(change(rt.alloc())?);
    check_change(&rt, &message)
}

fn delete(alloc: Global) -> Result<DocumentDelete, Fail> {
    let key = key(alloc, &["rooms", "a"])?;
    let removed_target_ids = ids(alloc, &[2])?;
    Ok(DocumentDelete {
        key,
        removed_target_ids,
        read_time: None,
    })
}

fn is_delete(message: &ListenResponse) -> bool {
    matches!(message, ListenResponse::Delete(_))
}

fn check_delete(rt: &(impl Abort + AllocGlobal), message: &ListenResponse) -> Result<(), Fail> {
    let copy = message.copy(rt.alloc())?;
    assert!(rt; is_delete(&copy));
    Ok(())
}

#[test]
fn deletes(rt: HostRuntime) -> Result<(), Fail> {
    let message = ListenResponse::Delete(delete(rt.alloc())?);
    check_delete(&rt, &message)
}

fn remove(alloc: Global) -> Result<DocumentRemove, Fail> {
    let key = key(alloc, &["rooms", "a"])?;
    let removed_target_ids = ids(alloc, &[2])?;
    Ok(DocumentRemove {
        key,
        removed_target_ids,
        read_time: None,
    })
}

fn is_remove(message: &ListenResponse) -> bool {
    matches!(message, ListenResponse::Remove(_))
}

fn check_remove(rt: &(impl Abort + AllocGlobal), message: &ListenResponse) -> Result<(), Fail> {
    let copy = message.copy(rt.alloc())?;
    assert!(rt; is_remove(&copy));
    Ok(())
}

#[test]
fn removes(rt: HostRuntime) -> Result<(), Fail> {
    let message = ListenResponse::Remove(remove(rt.alloc())?);
    check_remove(&rt, &message)
}

#[test]
fn ids_are_copied(rt: HostRuntime) -> Result<(), Fail> {
    let copy = ids(rt.alloc(), &[2, 4])?.copy(rt.alloc())?;
    assert!(rt; copy.as_slice() == [2, 4].as_slice());
    Ok(())
}

//! Copies of writes.

use crate::fixtures::{key, number, put};
use mutations::{Mask, Precondition, Transforms, Write};
use std::alloc::Global;
use std::test::Fail;
use value_model::{Fields, SharedFields};

fn fields(alloc: Global) -> Result<Fields, Fail> {
    let mut fields = Fields::new(alloc);
    put(alloc, &mut fields, "n", number(7))?;
    Ok(fields)
}

fn write(alloc: Global) -> Result<Write, Fail> {
    Ok(Write::Update {
        key: key(alloc, &["rooms", "a"])?,
        fields: SharedFields::new(alloc, fields(alloc)?)?,
        mask: Some(Mask::from_vec(Vec::new(alloc))),
        transforms: Transforms::from_vec(Vec::new(alloc)),
        condition: Precondition::Exists(false),
    })
}

fn is_copied(copy: &Write) -> bool {
    let Write::Update {
        key,
        fields,
        mask,
        transforms,
        condition,
    } = copy
    else {
        return false;
    };
    key.len() == 2
        && fields.as_fields().name_at(0) == Some("n")
        && fields.as_fields().len() == 1
        && mask.is_some()
        && transforms.as_slice().is_empty()
        && matches!(condition, Precondition::Exists(false))
}

#[test]
fn copied_write(rt: HostRuntime) -> Result<(), Fail> {
    let copy = write(rt.alloc())?.copy(rt.alloc())?;
    assert!(rt; is_copied(&copy));
    Ok(())
}

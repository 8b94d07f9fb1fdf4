//! Trees that borrow from their text, and a look into them.

ghost use Rattle.std.specs.Prelude.{◌≡◌, ◌<◌, [], Some, IfSome, length};
ghost use Rattle.json.specs.Json.{object, member, no_members, value};
ghost use Rattle.json.specs.Lex.{tokens};
ghost use Rattle.json.specs.Tree.{json_tokens};
ghost use Rattle.json.specs.Value.{value_view};
ghost use Rattle.plain_json.specs.Built.{IfBuilt};
ghost use Rattle.plain_json.specs.Trees.{HoldsOnly, HoldsBoth};

use crate::room::{Room, Tree};
use document_keys::NoMemory;
use json::{Error, Reader, Value};
use std::alloc::Global;

/// How many arrays and objects may nest in a text, as in a line that is read into a tree of its own.
const MAX_DEPTH: usize = 127;

/// The tree of a text, where that is JSON in which at most 127 arrays and objects nest. Of none nothing is said. What stood in the
/// room before is nothing to it.
///
/// # Errors
/// `NoMemory`
pub fn parse<'a>(
    alloc: Global,
    text: &'a str,
    room: &'a mut Room,
) -> Result<Option<Tree<'a>>, NoMemory>
    ensures { IfBuilt result (λ tree. value 127 (tokens text.now) ≡ Some (value_view tree, [])) }
{
    room.clear(alloc);
    let mut reader = Reader::new(text, &mut room.texts)?;
    match Value::read(&room.nodes, &mut reader, MAX_DEPTH) {
        Ok(tree) => {
            if reader.next().is_some() {
                return Ok(None);
            }
            Ok(Some(tree))
        }
        Err(Error::OutOfMemory) => Err(NoMemory),
        Err(_) => Ok(None),
    }
}

/// A member of an object.
#[derive(Clone, Copy)]
pub(crate) struct Member<'t, 'a> {
    pub(crate) name: &'t str,
    pub(crate) tree: &'t Tree<'a>,
}

/// The only member of an object of one.
pub(crate) fn only_member<'t, 'a>(tree: &'t Tree<'a>) -> Option<Member<'t, 'a>>
    ensures is { IfSome result (λ only. value_view tree.now
        ≡ object (member only.name.now (value_view only.tree.now) no_members)) }
    ensures smaller { IfSome result (λ only. length (json_tokens (value_view only.tree.now))
        < length (json_tokens (value_view tree.now))) }
{
    let Tree::Object(members) = tree else {
        return None;
    };
    if members.len() != 1 {
        return None;
    }
    let only = &members[0];
    Some(Member {
        name: only.0,
        tree: &only.1,
    })
}

/// The two members of an object of two, as they stand in the text.
pub(crate) fn both_members<'t, 'a>(tree: &'t Tree<'a>) -> Option<(Member<'t, 'a>, Member<'t, 'a>)>
    ensures { IfSome result (λ both. value_view tree.now ≡ object
        (member both.0.name.now (value_view both.0.tree.now)
        (member both.1.name.now (value_view both.1.tree.now) no_members))) }
{
    let Tree::Object(members) = tree else {
        return None;
    };
    if members.len() != 2 {
        return None;
    }
    let first = &members[0];
    let second = &members[1];
    let first = Member {
        name: first.0,
        tree: &first.1,
    };
    let second = Member {
        name: second.0,
        tree: &second.1,
    };
    Some((first, second))
}

/// What stands under the name in an object of just that member, which isn't left out. Of none nothing is said.
pub fn only_under<'t, 'a>(tree: &'t Tree<'a>, name: &str) -> Option<&'t Tree<'a>>
    ensures is { IfSome result (λ inner.
        HoldsOnly (value_view tree.now) name.now (value_view inner.now)) }
    ensures smaller { IfSome result (λ inner. length (json_tokens (value_view inner.now))
        < length (json_tokens (value_view tree.now))) }
{
    let only = only_member(tree)?;
    if only.name != name {
        return None;
    }
    if only.tree.is_null() {
        return None;
    }
    Some(only.tree)
}

/// What stands under the two names, in whichever order, in an object of just these members, neither of which is left out. Of none
/// nothing is said.
pub fn both_under<'t, 'a>(
    tree: &'t Tree<'a>,
    first: &str,
    second: &str,
) -> Option<(&'t Tree<'a>, &'t Tree<'a>)>
    ensures { IfSome result (λ both. HoldsBoth (value_view tree.now) first.now second.now
        (value_view both.0.now) (value_view both.1.now)) }
{
    let (one, other) = both_members(tree)?;
    if one.tree.is_null() {
        return None;
    }
    if other.tree.is_null() {
        return None;
    }
    if one.name == first {
        if other.name == second {
            return Some((one.tree, other.tree));
        }
        return None;
    }
    if one.name != second {
        return None;
    }
    if other.name != first {
        return None;
    }
    Some((other.tree, one.tree))
}

//! The ids of a change, put where there is room for them.

ghost use Rattle.std.specs.Prelude.{◌≡◌, ◌≤◌, ◌+◌, ◌++◌, length, vec_len};
ghost use Rattle.std.specs.Vec.{vec_capacity};
ghost use Rattle.limbo_resolver.specs.Limbo.{ids_of};

use document_keys::DocumentKey;

/// Puts the ids behind the others.
pub(crate) fn push_ended(ids: &mut Vec<i32>, ended: &[i32])
    requires { vec_len ids.old + length ended.now ≤ vec_capacity ids.old }
    ensures items { ids.new.items ≡ ids.old.items ++ ended.now }
    ensures len { vec_len ids.new ≡ vec_len ids.old + length ended.now }
    ensures capacity { vec_capacity ids.new ≡ vec_capacity ids.old }
{
    for id in ended {
        ids.push_reserved(*id);
    }
}

/// Puts the ids of the listens behind the others.
pub(crate) fn push_started(ids: &mut Vec<i32>, started: &[(i32, DocumentKey)])
    requires { vec_len ids.old + length started.now ≤ vec_capacity ids.old }
    ensures { ids.new.items ≡ ids.old.items ++ ids_of started.now }
{
    for (id, _) in started {
        ids.push_reserved(*id);
    }
}

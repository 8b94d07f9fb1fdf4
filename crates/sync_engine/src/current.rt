ghost use Rattle.std.specs.Prelude.{◌≡◌, ℤ, [], None, if◌then◌else◌, option_and_then, option_map, unwrap_or};
ghost use Rattle.std.specs.Ordering.{int_eq};
ghost use Rattle.sync_engine.specs.Standing.{standing_in};

use std::alloc::Global;
use views::Standing;

/// A target that is current, with the keys that were told of it at the last point.
#[derive(Debug, Drop)]
pub struct CurrentTarget {
    pub(crate) id: i32,
    pub(crate) standing: Standing,
}

/// The targets that are current.
#[derive(Debug, Drop)]
pub struct CurrentTargets {
    pub(crate) targets: Vec<CurrentTarget>,
}

impl CurrentTargets {
    /// None is current.
    pub(crate) fn new(alloc: Global) -> CurrentTargets
        ensures { result.targets.items ≡ [] }
    {
        CurrentTargets {
            targets: Vec::new(alloc),
        }
    }

    /// How the target stands, if it is current, lent.
    pub(crate) fn standing(&self, target: &i32) -> Option<&Standing>
        ensures { option_map (λ standing. standing.now) result
            ≡ standing_in self.now.targets.items target.now }
    {
        for current in self.targets.iter() {
            if current.id == *target {
                return Some(&current.standing);
            }
        }
        None
    }

    /// How the target stands, lent; the other where it isn't current, or there is none.
    pub(crate) fn standing_or<'a>(
        &'a self,
        target: Option<i32>,
        other: &'a Standing,
    ) -> &'a Standing
        ensures { result.now
            ≡ unwrap_or (option_and_then (standing_in self.now.targets.items) target) other.now }
    {
        let Some(target) = target else {
            return other;
        };
        match self.standing(&target) {
            Some(standing) => standing,
            None => other,
        }
    }

    /// The target isn't current any more.
    pub(crate) fn remove(&mut self, target: &i32)
        ensures { (t : ℤ) → standing_in self.new.targets.items t
            ≡ (if int_eq target.now t then None else standing_in self.old.targets.items t) }
    {
        self.targets.retain(|current| current.id != *target);
    }

    /// No target is current any more.
    pub(crate) fn clear(&mut self)
        ensures { self.new.targets.items ≡ [] }
    {
        self.targets.clear();
    }
}

use bumpalo::Bump;
use json::{Scratch, Value};
use std::alloc::Global;

/// A tree over borrowed text, whose nodes stand in an arena.
pub type Tree<'a> = Value<'a, &'a Bump>;

/// So many bytes of an arena are kept for the next tree, if it has no more.
const MOST_KEPT: usize = 1 << 20;

/// The memory that trees are read into. Kept from text to text, it is taken once for most of them, and no node of a tree takes or
/// gives back any of its own.
#[derive(Drop)]
pub struct Room {
    pub(crate) texts: Scratch,
    pub(crate) nodes: Bump,
}

impl Room {
    /// Room for trees, of which none was read yet.
    pub fn new(alloc: Global) -> Room {
        Room {
            texts: Scratch::new(alloc),
            nodes: Bump::new(alloc),
        }
    }

    /// Gives up the last tree, and an arena that grew large.
    pub(crate) fn clear(&mut self, alloc: Global) {
        if self.nodes.allocated_bytes() > MOST_KEPT {
            self.nodes = Bump::new(alloc);
        }
        // no tree is left, since each borrows from this room; an arena that failed here would go on growing
        let _ = self.nodes.reset();
    }
}

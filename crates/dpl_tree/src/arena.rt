// The arena in which the nodes of a tree lie, and how nodes and lists come into it.
// What a clause says of a reference is what it points to: where a node lies is in no contract.

ghost use Rattle.std.specs.Prelude.{◌≡◌, IfOk};

use bumpalo::Bump;
use std::alloc::{AllocError, Global};

/// Where a tree's nodes lie. All of them go at once, with the arena that this refers to.
#[derive(Clone, Copy)]
pub struct Arena<'t> {
    nodes: &'t Bump,
    alloc: Global,
}

impl<'t> Arena<'t> {
    /// Nodes lie in the first; lists lie in memory of the second while they are read, and then in the first too.
    pub fn new(nodes: &'t Bump, alloc: Global) -> Arena<'t> {
        Arena { nodes, alloc }
    }

    /// What lists lie in while they are read.
    pub fn alloc(self) -> Global {
        self.alloc
    }

    /// The node in the arena.
    ///
    /// # Errors
    /// Out of memory.
    pub fn node<T: Copy>(self, node: T) -> Result<&'t T, AllocError>
        ensures { IfOk result (λ r. r.now ≡ node) }
    {
        match self.nodes.try_alloc(node) {
            Ok(here) => Ok(here),
            Err(_) => Err(AllocError),
        }
    }

    /// The nodes in the arena, one after the other.
    ///
    /// # Errors
    /// Out of memory.
    pub fn list<T: Copy>(self, nodes: Vec<T>) -> Result<&'t [T], AllocError>
        ensures { IfOk result (λ r. r.now ≡ nodes.items) }
    {
        let list = self.nodes.try_alloc_slice_copy(&nodes)?;
        Ok(list)
    }
}

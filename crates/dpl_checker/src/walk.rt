// How far the walk over a program is: the names in sight, what the program did so far, the first violation that was told, and how many slots
// and declarations there are. Its parts are changed by the functions of the forms, one after the other.

ghost use Rattle.std.specs.Prelude.{◌≡◌, max};
ghost use Rattle.dpl_scopes.specs.Slots.{next_slot_in};

use dpl_assignments::around::Reducing;
use dpl_deeds::Deed;
use dpl_limits::Counts;
use dpl_nodes::Step;
use dpl_scopes::Scopes;
use dpl_syntax::Breach;
use dpl_tree::Arena;
use std::alloc::AllocError;

/// The step of a statement; or out of memory, and of the walk then nothing is said.
pub(crate) type Stepped<'t> = Result<Step<'t>, AllocError>;

/// Those of a body.
pub(crate) type Listed<'t> = Result<&'t [Step<'t>], AllocError>;

/// What a statement has in sight besides names: the forall around it, if there is one, and whether a task runs it.
#[derive(Clone, Copy)]
pub(crate) struct Around<'t> {
    pub forall: Option<Reducing<'t>>,
    pub in_task: bool,
}

/// The names in sight, what the program did so far, the first violation that was told, how many slots a frame needs for what is behind, and
/// how many names and cells that declares.
#[derive(Drop)]
pub(crate) struct Walk<'t> {
    pub arena: Arena<'t>,
    pub scopes: Scopes<'t>,
    pub deeds: Vec<Deed<'t>>,
    pub first: Option<Breach>,
    pub slots: usize,
    pub counts: Counts,
}

impl<'t> Walk<'t> {
    /// Counts the slots of the names that were declared.
    pub(crate) fn count_slots(&mut self)
        ensures { self.new ≡ record self.old { slots = max self.old.slots (next_slot_in self.old.scopes) } }
    {
        self.slots = self.slots.max(self.scopes.next_slot());
    }
}

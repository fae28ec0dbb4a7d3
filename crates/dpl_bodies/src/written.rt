// The outer arrays that a forall's body writes, each once.
// Whether an array is among them is found by a hash of its name and depth.

ghost use Rattle.std.specs.Prelude.{◌≡◌, [], OnOk};
ghost use Rattle.dpl_rules.specs.Bodies.{is_in};
ghost use Rattle.dpl_scopes.specs.Types.{origin_view};
ghost use Rattle.dpl_bodies.specs.Written.{with_origin};

use dpl_scopes::Origin;
use indexmap::IndexSet;
use std::alloc::{AllocError, Global};
use std::marker::Model;

/// Arrays, each by its depth and its name.
#[derive(Drop)]
pub struct Written<'t> {
    origins: IndexSet<(usize, &'t [u8])>,
}

impl<'t> Model for Written<'t> {
    ghost use Rattle.std.specs.Prelude.{List, map};
    ghost use Rattle.dpl_rules.specs.Types.{Origin as Array};
    ghost use Rattle.dpl_bodies.specs.Written.{key_origin};

    ghost Value = { List Array };

    ghost view = { λ s. map key_origin s.origins.keys };
}

impl<'t> Written<'t> {
    /// None.
    pub fn new(alloc: Global) -> Written<'t>
        ensures { result ≡ [] }
    {
        Written {
            origins: IndexSet::new(alloc),
        }
    }

    /// Whether an array is among them.
    pub fn has(&self, array: Origin<'_>) -> bool
        ensures { result ≡ is_in (origin_view array.entry) self.now }
    {
        self.origins.contains(&(array.depth, array.name))
    }

    /// One more array, if it isn't among them.
    ///
    /// # Errors
    /// Out of memory; of the arrays then nothing is said.
    pub fn put(&mut self, array: Origin<'t>) -> Result<(), AllocError>
        ensures { OnOk result (self.new ≡ with_origin self.old (origin_view array.entry)) }
    {
        self.origins.insert_full((array.depth, array.name))?;
        Ok(())
    }
}

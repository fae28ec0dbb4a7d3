// Gates: what a worker asks before each of its turns, unless the gate says that it is open.
// A gate may refuse entries, and its contract names those that it may.

ghost use Rattle.std.specs.Prelude.{◌≡◌, ℕ, true, false};
ghost use Rattle.dpl_map.specs.Maps.{owner};

use dpl_domain::Index;
use dpl_map::Map;

/// A gate before the turns of loops. A worker enters with its locale and the turn's place in the loop's domain, and
/// ends at the first refusal.
pub trait Gate {
    // The entries, each a worker and a place, that the gate may refuse.
    ghost may_refuse: { Self → ℕ → ℕ → Type 0 };

    /// Whether a worker may make the turn at a place. It may wait before it answers.
    fn enter(&self, worker: u32, place: u64) -> bool
        ensures { result ≡ false → may_refuse self.now worker place };

    /// Whether the gate refuses nothing. Then no worker enters it, and it isn't looked up who would.
    fn is_open(&self) -> bool
        ensures { result ≡ true → (worker place : ℕ) → may_refuse self.now worker place → ⊥ }
    {
        false
    }
}

/// Whether the owner of an index may make the turn at a place.
#[inline(always)]
pub(crate) fn enters<G: Gate>(gate: &G, map: &Map, index: Index, place: u64) -> bool
    ensures { result ≡ false → G.may_refuse gate.now (owner map.now index) place }
{
    gate.is_open() || gate.enter(map.owner(index), place)
}

/// The gate that refuses nothing.
#[derive(Clone, Copy, Debug)]
pub struct OpenGate;

impl Gate for OpenGate {
    ghost may_refuse = { λ _ _ _. ⊥ };

    #[inline(always)]
    fn enter(&self, _worker: u32, _place: u64) -> bool {
        true
    }

    #[inline(always)]
    fn is_open(&self) -> bool {
        true
    }
}

// Arrays of one word, which declarations begin with.

ghost use Rattle.std.specs.Prelude.{◌≡◌, false, map, IfOk};
ghost use Rattle.dpl_language.specs.Ranges.{indices_in, too_large};
ghost use Rattle.dpl_memory.specs.Memory.{whole_held};

use dpl_array::ArrayFault;
use dpl_contents::{ArrayWords, DomainWord};
use dpl_map::Map;
use std::alloc::{AllocError, Global};

/// An array of one word, which is dealt out by a map.
///
/// # Errors
/// Out of memory.
pub(crate) fn filled(
    alloc: Global,
    domain: DomainWord,
    owner: Map,
    word: i64,
) -> Result<ArrayWords, AllocError>
    requires { too_large domain ≡ false }
    ensures { IfOk result (λ a. a ≡ whole_held domain (map (λ t. word) (indices_in domain))) }
{
    match ArrayWords::new(alloc, domain, owner, word) {
        Ok(array) => Ok(array),
        Err(ArrayFault::Memory) => Err(AllocError),
        Err(ArrayFault::Size) => unreachable!(),
    }
}

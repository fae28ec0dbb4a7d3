// The parts of a loop's domain, one for each locale.

ghost use Rattle.std.specs.Prelude.{IfOk, ℕ, List};
ghost use Rattle.dpl_sets.specs.Ranges.{RangeValue};
ghost use Rattle.dpl_sets.specs.Indices.{indices};
ghost use Rattle.dpl_map.specs.Cuts.{AreCut};
ghost use Rattle.dpl_map.specs.Maps.{AxisValue};
ghost use Rattle.dpl_map.specs.Parts.{part};
ghost use Rattle.dpl_workers.specs.Parts.{IsPart, AreParts};

use dpl_domain::Domain;
use dpl_map::Map;
use std::alloc::{AllocError, Global};

// The part of a locale that has an index: one domain; or, where it is several, whatever the locale owns.
#[derive(Clone, Copy)]
pub(crate) enum Part {
    Sole(Domain),
    Owned,
}

// A part that is cut into domains.
fn told(domains: &[Domain]) -> Option<Part>
    ensures { (whole : List RangeValue) (axes : List AxisValue) (l : ℕ) → AreCut indices (part whole axes l) domains.now → IsPart whole axes l result }
{
    match domains {
        [] => None,
        [domain] => Some(Part::Sole(*domain)),
        _ => Some(Part::Owned),
    }
}

/// The parts of a domain by the locales of a map.
///
/// # Errors
/// Out of memory.
pub(crate) fn parts(
    alloc: Global,
    map: &Map,
    whole: &Domain,
) -> Result<Vec<Option<Part>>, AllocError>
    ensures { IfOk result (λ parts. AreParts whole.now map.now parts.items) }
{
    let mut parts = Vec::new(alloc);
    for locale in 0..map.locales() {
        let Ok(domains) = map.part(alloc, whole, locale) else {
            return Err(AllocError);
        };
        parts.push(told(&domains))?;
    }
    Ok(parts)
}

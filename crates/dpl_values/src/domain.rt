// What is found at an index, domains that have to be small enough, and methods of domains.
// None of them looks at a frame.

ghost use Rattle.std.specs.Prelude.{◌≡◌, false, Ok};
ghost use Rattle.dpl_language.specs.Values.{Int, Domain};
ghost use Rattle.dpl_language.specs.Ranges.{too_many, method_of};
ghost use Rattle.dpl_lowered.specs.Shapes.{nowhere};
ghost use Rattle.dpl_nodes.specs.Typed.{domain_word};
ghost use Rattle.dpl_frame.specs.Faults.{Tells};
ghost use Rattle.dpl_values.specs.Elements.{word_found, sized_or};

use dpl_frame::{Alarm, DomainWord, FaultCode, Turn};
use dpl_nodes::{DomainMethod, Spot};

/// The word that was found at an index.
///
/// # Errors
/// `F1` at the array's name where there is none.
#[inline(always)]
pub(crate) fn found(at: &Spot, word: Option<i64>, turn: &mut Turn) -> Result<i64, Alarm>
    ensures { Tells ⊥ (λ w. w) turn.new result (word_found at.now word) }
{
    match word {
        Some(word) => Ok(word),
        None => Err(Alarm::new(FaultCode::Outside, *at, turn)),
    }
}

/// A domain, if it is small enough.
///
/// # Errors
/// `F3` at the opening bracket.
pub(crate) fn sized(
    at: &Spot,
    domain: Option<DomainWord>,
    turn: &mut Turn,
) -> Result<DomainWord, Alarm>
    ensures { Tells ⊥ (λ d. d) turn.new result (sized_or at.now domain) }
{
    match domain {
        Some(domain) => Ok(domain),
        None => Err(Alarm::new(FaultCode::PastLimit, *at, turn)),
    }
}

/// A domain, which never has too many indices.
pub fn small(domain: DomainWord) -> DomainWord
    ensures is { result ≡ domain }
    ensures small { too_many domain ≡ false }
{
    // Nothing is read here: that the domain is small enough is a clause of this call.
    let _ = domain.size();
    domain
}

/// What a method of a domain gives.
pub(crate) fn domain_method(method: DomainMethod, domain: DomainWord) -> i64
    ensures { method_of (domain_word method) nowhere (Domain domain) ≡ Ok (Int result) }
{
    match method {
        DomainMethod::Size => domain.size() as i64,
    }
}

// The first of the breaches that are told, by place and then by code.
// They may be told in any order.

ghost use Rattle.std.specs.Prelude.{◌≡◌};
ghost use Rattle.dpl_syntax.specs.declared.refusal.Code.TheVariants.{WrongRank as WrongRankCode};
ghost use Rattle.dpl_rules.specs.Verdicts.{breach as breach_of, owed as owed_of};
ghost use Rattle.dpl_rules.specs.Breaches.{before, lesser, or_lesser, place_before, rank as rank_of};
ghost use Rattle.dpl_types.specs.Owes.{Owes};

use dpl_syntax::{Breach, Code, Place};

// The codes in their order.
fn rank(code: Code) -> u8
    ensures { result ≡ rank_of code }
{
    match code {
        Code::NotText => 0,
        Code::BadCharacter => 1,
        Code::NumberTooLarge => 2,
        Code::Unexpected => 3,
        Code::TooDeep => 4,
        Code::UnknownName => 5,
        Code::NameTwice => 6,
        Code::WrongType => 7,
        Code::ConstantWritten => 8,
        Code::WrongRank => 9,
        Code::WrittenElsewhere => 10,
        Code::ReadElsewhere => 11,
        Code::OuterChanged => 12,
        Code::NotInForall => 13,
        Code::NotInCoforall => 14,
        Code::CellMisused => 15,
        Code::TooMany => 16,
        Code::BadSet => 17,
    }
}

// Whether a place stands before another.
fn is_place_before(a: Place, b: Place) -> bool
    ensures { result ≡ place_before a b }
{
    a.line < b.line || (a.line == b.line && a.column < b.column)
}

// Whether a breach comes before another: by place, and then by code.
fn is_before(a: Breach, b: Breach) -> bool
    ensures { result ≡ before a b }
{
    is_place_before(a.at, b.at)
        || (a.at.line == b.at.line && a.at.column == b.at.column && rank(a.code) < rank(b.code))
}

/// Tells a breach: the first one is kept.
pub fn note(first: &mut Option<Breach>, at: Place, code: Code)
    ensures { first.new ≡ lesser first.old (record { at = at; code = code }) }
{
    let breach = Breach { at, code };
    match *first {
        None => *first = Some(breach),
        Some(earliest) => {
            if is_before(breach, earliest) {
                *first = Some(breach);
            }
        }
    }
}

/// Tells a breach where a test failed. The answer is the test's.
pub fn owed(holds: bool, at: Place, code: Code, first: &mut Option<Breach>) -> bool
    ensures { Owes (owed_of holds at code) result first.old first.new }
{
    if !holds {
        note(first, at, code);
    }
    holds
}

/// Tells that a number of parts isn't taken. Nothing holds then.
pub fn wrong_rank(at: Place, first: &mut Option<Breach>) -> bool
    ensures { Owes (breach_of at WrongRankCode) result first.old first.new }
{
    note(first, at, Code::WrongRank);
    false
}

/// Tells what was told apart from the rest, if it was anything.
pub fn tell(first: &mut Option<Breach>, apart: Option<Breach>)
    ensures { first.new ≡ or_lesser first.old apart }
{
    if let Some(breach) = apart {
        note(first, breach.at, breach.code);
    }
}

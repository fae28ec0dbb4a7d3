// When two domains are equal in the language.
// Equal domains may have other bounds and strides; a piece of one fits into an array over the other.

ghost use Rattle.std.specs.Prelude.{◌≡◌, ◌↔◌, IsTrue};
ghost use Rattle.dpl_sets.specs.Ranges.{members_of};
ghost use Rattle.dpl_sets.specs.TextRanges.{SameRange};
ghost use Rattle.dpl_sets.specs.TextDomains.{SameDomain};
ghost use Rattle.dpl_array.specs.Same.{text_of, texts_of};

use dpl_domain::Domain;
use dpl_range::Range;

/// Whether two domains are equal in the language.
pub(crate) fn same_domain(one: &Domain, other: &Domain) -> bool
    ensures { IsTrue result ↔ SameDomain (texts_of one.now) (texts_of other.now) }
{
    if one.rank() != other.rank() {
        return false;
    }
    let (outer, middle, inner) = one.ranges();
    let (first, second, last) = other.ranges();
    if !same_range(&outer, &first) {
        return false;
    }
    if !same_range(&middle, &second) {
        return false;
    }
    same_range(&inner, &last)
}

// Whether two ranges are equal in the language.
fn same_range(one: &Range, other: &Range) -> bool
    ensures { IsTrue result ↔ SameRange (text_of one.now) (text_of other.now) }
{
    if !same_members(one, other) {
        return false;
    }
    if one.stride() != 1 || other.stride() != 1 {
        return true;
    }
    if one.low_bound() != other.low_bound() || one.high_bound() != other.high_bound() {
        return false;
    }
    true
}

// Whether two ranges have the same members.
fn same_members(one: &Range, other: &Range) -> bool
    ensures { IsTrue result ↔ (members_of one.now ≡ members_of other.now) }
{
    if one.size() != other.size() || one.first() != other.first() {
        return false;
    }
    if one.size() >= 2 && one.stride() != other.stride() {
        return false;
    }
    true
}

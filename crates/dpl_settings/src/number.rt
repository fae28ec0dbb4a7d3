// Numbers of options: decimal digits and no sign.

ghost use Rattle.std.specs.Prelude.{◌≡◌, ◌≤◌, ◌==◌, IfSome, slice_index};
ghost use Rattle.dpl_settings.specs.CommandLine.{count_of};

// The greatest number of turns: 2^32.
pub(crate) const MOST_TURNS: u64 = 1 << 32;

// The greatest number of locales, in all and along a dimension.
const MOST_LOCALES: u64 = 64;

// The number from 1 to the greatest that the text is, if it is one.
pub(crate) fn count_of(text: &str, most: u64) -> Option<u64>
    ensures value { result ≡ count_of most text.now }
    ensures within { IfSome result (λ count. (1 ≤ count) × (count ≤ most)) }
{
    if has_plus(text.as_bytes()) {
        return None;
    }
    let count = text.parse::<u64>().ok()?;
    if count < 1 || most < count {
        return None;
    }
    Some(count)
}

// Whether a text begins with a plus, as a number that `parse` reads may.
fn has_plus(text: &[u8]) -> bool
    ensures { result ≡ (slice_index text.now 0 == 43) }
{
    !text.is_empty() && text[0] == b'+'
}

// The number of locales that the text is, in all or along a dimension, if it is one from 1 to 64.
pub(crate) fn locales_in(text: &str) -> Option<u32>
    ensures value { result ≡ count_of 64 text.now }
    ensures within { IfSome result (λ count. (1 ≤ count) × (count ≤ 64)) }
{
    let count = count_of(text, MOST_LOCALES)?;
    Some(count as u32)
}

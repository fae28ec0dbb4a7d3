// Grids of locales, as they are written: extents with a small `x` between them.
// A grid is one of a number of locales, to which its extents multiply.

ghost use Rattle.std.specs.Prelude.{◌≡◌, ◌*◌, IfSome, slice_index};
ghost use Rattle.dpl_settings.specs.CommandLine.{behind, front, grid2_in, grid3_in};

use crate::number::locales_in;

// What stands before the first `x` of a text, and what stands behind it; nothing where there is none.
fn cut(text: &str) -> (&str, &str)
    ensures front { result.0.now ≡ front text.now }
    ensures behind { result.1.now ≡ behind text.now }
{
    match text.split_once('x') {
        Some((front, behind)) => (front, behind),
        None => (text, ""),
    }
}

// The grid of two dimensions that the text is for so many locales, if it is one.
pub(crate) fn grid2_in(text: &str, locales: u32) -> Option<[u32; 2]>
    ensures value { result ≡ grid2_in locales text.now }
    ensures fits { IfSome result (λ grid. slice_index grid 0 * slice_index grid 1 ≡ locales) }
{
    let (rows, columns) = cut(text);
    let rows = locales_in(rows)?;
    let columns = locales_in(columns)?;
    if rows * columns != locales {
        return None;
    }
    Some([rows, columns])
}

// The grid of three dimensions that the text is for so many locales, if it is one.
pub(crate) fn grid3_in(text: &str, locales: u32) -> Option<[u32; 3]>
    ensures value { result ≡ grid3_in locales text.now }
    ensures fits { IfSome result (λ grid. slice_index grid 0 * slice_index grid 1 * slice_index grid 2 ≡ locales) }
{
    let (planes, plane) = cut(text);
    let (rows, columns) = cut(plane);
    let planes = locales_in(planes)?;
    let rows = locales_in(rows)?;
    let columns = locales_in(columns)?;
    if planes * rows * columns != locales {
        return None;
    }
    Some([planes, rows, columns])
}

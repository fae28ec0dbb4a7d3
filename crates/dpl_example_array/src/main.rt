// An array in pieces: it is cut by a map, each piece is taken out and filled by itself, as a worker would, and all are put back.
// Whoever has a piece owns it; the array that comes back is the union of what was put.
#![tactic(auto)]

use dpl_array::{DArray, Pieces};
use dpl_domain::Domain;
use dpl_map::{Grid, Map};
use dpl_range::Range;
use std::alloc::Global;
use std::io;

// An array of eight elements, in blocks for three locales. Only memory can be refused.
fn made(alloc: Global) -> Option<DArray<i64>> {
    let line = Range::new(1, 8, 1).ok()?;
    let domain = Domain::new(&[line]).ok()?;
    let grid = Grid::new(&[3]).ok()?;
    let map = Map::block(&domain, grid).ok()?;
    DArray::new(alloc, domain, map, 0).ok()
}

fn main(rt: HostRuntime) -> io::Result<()> {
    let Some(array) = made(rt.alloc()) else {
        return println!(&rt; "out of memory");
    };
    let mut pieces = array.take_pieces();
    for locale in 0..pieces.map().locales() {
        fill(rt.alloc(), &mut pieces, locale);
    }
    if !pieces.is_whole() {
        return println!(&rt; "a piece is missing");
    }
    print_elements(&rt, &pieces.put_back())
}

// Takes the piece of a locale, puts the square of each of its indices and the locale's number into it, and puts it back.
fn fill(alloc: Global, pieces: &mut Pieces<i64>, locale: u32) {
    let Ok(parts) = pieces.map().part(alloc, &pieces.domain(), locale) else {
        return;
    };
    let Some(mut piece) = pieces.take(locale) else {
        return;
    };
    for part in &parts {
        let mut indices = part.cursor();
        for _ in 0..part.size() {
            let Some(index) = indices.next() else {
                break;
            };
            let (_, _, i) = index.numbers();
            let _ = piece.set(
                index,
                i.wrapping_mul(i)
                    .wrapping_mul(10)
                    .wrapping_add(locale as i64),
            );
        }
    }
    let _ = pieces.put(piece);
}

// The elements, in the order of the domain.
fn print_elements<R: Print>(rt: &R, array: &DArray<i64>) -> io::Result<()> {
    let mut elements = array.walk();
    for _ in 0..array.domain().size() {
        let Some((index, value)) = elements.next() else {
            break;
        };
        println!(rt; "{index}: {value}")?;
    }
    Ok(())
}

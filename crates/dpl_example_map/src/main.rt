// Who owns each index of a plane, by three maps: pictures of how an array is cut. And what each locale has of a smaller domain.
// A map is made for a grid of locales; it answers the owner of any index, and a locale's part of any domain.
#![tactic(auto)]

use dpl_domain::{Domain, Index};
use dpl_map::{Grid, Map};
use dpl_range::Range;
use std::alloc::Global;
use std::io;

// Three maps of a plane, and the plane without its border.
#[derive(Drop)]
struct Cuts {
    block: Map,
    cyclic: Map,
    both: Map,
    inside: Domain,
}

// None of these is refused: bounds are within 2^60, there are one to three dimensions and 1 to 64 locales, and each size is 1 or more.
fn made() -> Option<Cuts> {
    let rows = Range::new(1, 4, 1).ok()?;
    let columns = Range::new(1, 8, 1).ok()?;
    let plane = Domain::new(&[rows, columns]).ok()?;
    let grid = Grid::new(&[2, 2]).ok()?;
    let start = Index::new(&[1, 1])?;
    let sizes = Index::new(&[1, 2])?;
    Some(Cuts {
        block: Map::block(&plane, grid).ok()?,
        cyclic: Map::cyclic(start, grid).ok()?,
        both: Map::block_cyclic(start, sizes, grid).ok()?,
        inside: plane.expand(-1).ok()?,
    })
}

fn main(rt: HostRuntime) -> io::Result<()> {
    let Some(cuts) = made() else {
        return println!(&rt; "there is no such map");
    };
    println!(&rt; "blockDist           cyclicDist          blockCycDist, blocks of 1 x 2")?;
    for row in 1..5 {
        print_owners(&rt, &cuts.block, row)?;
        print!(&rt; "    ")?;
        print_owners(&rt, &cuts.cyclic, row)?;
        print!(&rt; "    ")?;
        print_owners(&rt, &cuts.both, row)?;
        println!(&rt; "")?;
    }
    print_parts(&rt, rt.alloc(), &cuts.block, &cuts.inside)
}

// The owners of the indices of a row of the plane.
fn print_owners<R: Print>(rt: &R, map: &Map, row: i64) -> io::Result<()> {
    for column in 1..9 {
        if let Some(index) = Index::new(&[row, column]) {
            print!(rt; "{} ", map.owner(index))?;
        }
    }
    Ok(())
}

// How many indices of a domain each locale owns, and the first of them.
fn print_parts<R: Print>(rt: &R, alloc: Global, map: &Map, domain: &Domain) -> io::Result<()> {
    for locale in 0..map.locales() {
        let Ok(parts) = map.part(alloc, domain, locale) else {
            return println!(rt; "out of memory");
        };
        for part in &parts {
            if let Some(first) = part.nth(0) {
                println!(rt;
                    "locale {locale} has {} indices of the inside, from {first} on",
                    part.size()
                )?;
            }
        }
    }
    Ok(())
}

// Tests of what arrays stand on and of arrays: ranges, domains, maps, arrays in pieces, halos and loans.
// They stand in a crate of their own, since a crate with tests is proved twice, and no crate waits for this one.
// What a program of the language can show is a row of `dpl_rows`; here is what none reaches, and what no clause says.
#![tactic(auto)]

#[cfg(test)]
mod arrays;
#[cfg(test)]
mod contents;
#[cfg(test)]
mod domains;
#[cfg(test)]
mod growths;
#[cfg(test)]
mod halos;
#[cfg(test)]
mod made;
#[cfg(test)]
mod maps;
#[cfg(test)]
mod ranges;

//! Tests of the machine's parts by their public calls: of instructions (`pool_isa`), images (`image_form`), linking
//! (`pool_linker`) and runs (`machine`). They stand apart, since a crate with tests is proved twice.
#![tactic(auto)]

#[cfg(test)]
mod images;
#[cfg(test)]
mod instructions;
#[cfg(test)]
mod linking;
#[cfg(test)]
mod operators;
#[cfg(test)]
mod resumed;
#[cfg(test)]
mod runs;
#[cfg(test)]
mod scenes;

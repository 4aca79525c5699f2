//! Tests of the crates at the bottom, by their public calls: `byte_string`, `c_num`, `run_theory`, `raw_slab`, `slab_space`
//! and `pool_runtime`. They stand apart, since a crate with tests is proved twice.
#![tactic(auto)]

#[cfg(test)]
mod answers;
#[cfg(test)]
mod byte_strings;
#[cfg(test)]
mod ends;
#[cfg(test)]
mod integers;
#[cfg(test)]
mod pools;
#[cfg(test)]
mod slabs;
#[cfg(test)]
mod spaces;

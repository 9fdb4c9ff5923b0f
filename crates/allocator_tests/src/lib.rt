//! Tests of the libraries that place allocations in blocks of memory: values from outside, and each
//! public call once where it succeeds. They stand apart, since a crate with tests is proved twice.
#![tactic(auto)]

#[cfg(test)]
mod blocks;
#[cfg(test)]
mod expect;
#[cfg(test)]
mod free_lists;
#[cfg(test)]
mod linear_blocks;
#[cfg(test)]
mod pools;
#[cfg(test)]
mod slots;
#[cfg(test)]
mod stand;

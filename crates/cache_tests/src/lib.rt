//! Tests of the device whose queues have caches: of what no contract says, each public call once where
//! it succeeds, and values from outside. They stand apart, since a crate with tests is proved twice.
#![tactic(auto)]

#[cfg(test)]
mod expect;
#[cfg(test)]
mod parts;
#[cfg(test)]
mod stepping;
#[cfg(test)]
mod touching;
#[cfg(test)]
mod traces;

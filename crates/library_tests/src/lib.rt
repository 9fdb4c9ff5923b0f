//! Tests of the device and of whole runs: of what no contract says, each public call once where it
//! succeeds, and values from outside. They stand apart, since a crate with tests is proved twice.
#![tactic(auto)]

#[cfg(test)]
mod counting;
#[cfg(test)]
mod device;
#[cfg(test)]
mod expect;
#[cfg(test)]
mod first_caller;
#[cfg(test)]
mod limits;
#[cfg(test)]
mod pools;
#[cfg(test)]
mod replays;
#[cfg(test)]
mod runs;
#[cfg(test)]
mod streams;
#[cfg(test)]
mod texels;

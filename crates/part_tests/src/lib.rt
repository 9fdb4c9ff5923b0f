//! Tests of the libraries below the device, each for itself: of what no contract says, each public
//! call once where it succeeds, and values from outside.
#![tactic(auto)]

#[cfg(test)]
mod buffers;
#[cfg(test)]
mod expect;
#[cfg(test)]
mod host_cache;
#[cfg(test)]
mod image_tiles;
#[cfg(test)]
mod layouts;
#[cfg(test)]
mod memory;
#[cfg(test)]
mod offers;
#[cfg(test)]
mod order;
#[cfg(test)]
mod queue_cache;
#[cfg(test)]
mod queues;
#[cfg(test)]
mod ranges;
#[cfg(test)]
mod ready;
#[cfg(test)]
mod transfer;

//! Where the resources of a trace lie after each of its entries that allocates, releases or moves some:
//! heaps, memory objects, pools with their blocks and what is taken there; and what an allocation lacks
//! that finds no room.
#![tactic(auto)]

mod lacking;
mod listing;
mod owners;
mod requests;
mod running;
mod states;
mod texts;
mod walking;
mod windows;

pub use lacking::{HeapLack, Lack, PoolLack, lack_of};
pub use listing::state_of;
pub use running::{Listing, Told, listing_of, run};
pub use states::{
    HeapUse, Hold, LiveBlock, LiveObject, LivePool, LiveResource, Owner, State, Taken,
};
pub use walking::{Walk, walk_of};

//! The types of a trace, and what a scheduler and a suballocator promise.
#![tactic(auto)]

mod command;
mod config;
mod copying;
mod entry;
mod laws;
mod layout;
mod making;
mod masks;
mod passes;
mod places;
mod point;
mod resource;
mod rule;
mod scheduler;
mod sequence;
mod statistics;
mod suballoc;
mod subresource;

pub use command::{
    BufferCopy, BufferElement, BufferImageCopy, Cmd, Dependency, Element, Families, ImageCopy,
    ImageElement, Length, SubresourceRange,
};
pub use config::Config;
pub use copying::Duplicate;
pub use entry::{Batch, Entry, SemaphoreSubmit, SemaphoreValue};
pub use laws::{
    before_is_order, before_is_path, fault_is_first, fault_of_past_is_first, growth_keeps,
    names_differ, no_fault_is_sound, no_fault_is_unbroken, order_is_structured, orders_agree,
    pieces_are_byte_writes, pieces_write_apart, points_come_once, table_is_whole,
};
pub use layout::{Format, Layout};
pub use masks::{Accesses, Stages, Usage};
pub use passes::{
    freeing_lowers_ranks, moves_stay_down, no_moves_left, parts_follow, passes_end,
    passes_lead_down, passes_of_pools_end, places_lie_inside, ranks_are_bounded,
};
pub use places::{
    blocks_give, linear_frees, linear_stays, linear_takes, passes_lower_ranks, pool_stays,
    putting_is_sound, ranks_fall, subresources_hold, taking_away_is_sound, texels_apart,
    texels_inside,
};
pub use point::{Action, Point};
pub use resource::{
    BufferInfo, ImageInfo, Kind, MemoryInfo, Need, Place, PoolInfo, PoolKind, Sharing, Spot,
};
pub use rule::{At, Rule};
pub use scheduler::{First, Last, Scheduler, Seeded};
pub use sequence::Sequence;
pub use statistics::Statistics;
pub use suballoc::{SubFault, Suballoc, TakenRange};
pub use subresource::SubresourceLayout;

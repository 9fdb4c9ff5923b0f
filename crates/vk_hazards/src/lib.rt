//! What is so of a point that breaks a rule on what came before it: of a hazard the earlier access,
//! and which link between the two is missing; of an id what became of it; of a wait who would signal
//! it; of a byte that is read undefined where its value was lost; and what still uses an object. And
//! what the points before such a point hold.
#![tactic(auto)]

mod alike;
mod areas;
mod asked;
mod availability;
mod before;
mod busy;
mod causes;
mod commands;
mod counters;
mod creating;
mod facts;
mod faults;
mod hazards;
mod idle;
mod laws;
mod links;
mod lives;
mod nodes;
mod origins;
mod pairs;
mod past;
mod regions;
mod releases;
mod signalers;
mod strays;
mod touched;
mod trail;
mod undefined;
mod until;
mod visibility;

pub use asked::ObjectKind;
pub use before::{Doing, all_rows, at_of, latest, order_of, signal_of};
pub use busy::User;
pub use causes::{Cause, cause_of};
pub use counters::CounterFact;
pub use facts::{Fact, fact_of_fault};
pub use faults::{links_of_fact, links_of_fault};
pub use hazards::{Hazard, HazardFact, Placed};
pub use idle::{IdleBarrier, IdleCause};
pub use laws::missing_is_one;
pub use links::{Links, Missing};
pub use lives::{DeadId, Life};
pub use nodes::Nodes;
pub use past::Past;
pub use releases::{Halves, LateRelease, late_release};
pub use signalers::Signaler;
pub use strays::StrayId;
pub use trail::Loss;
pub use undefined::{Copied, Undefined};

//! Why a trace is refused: what the rule that is broken compares or finds at the refused point, and since
//! when; what is so of it by the points before it, and which link of a hazard is missing.
#![tactic(auto)]

mod areas;
mod begun;
mod busy;
mod busy_hints;
mod commands;
mod commons;
mod defrags;
mod events;
mod finder;
mod findings;
mod hints;
mod layouts;
mod lists;
mod mappings;
mod measures;
mod named;
mod overlaps;
mod owners;
mod pairs;
mod pass_facts;
mod pass_states;
mod passes;
mod reports;
mod rows;
mod signals;
mod states;
mod submitted;
mod subresources;
mod timeline;
mod transfers;
mod transition_pairs;
mod transitions;
mod users;
mod writes;

pub use busy::BusyResource;
pub use commons::Common;
pub use defrags::OpenDefrag;
pub use events::{EventDependency, EventState};
pub use findings::{Finding, finding_of};
pub use layouts::{LayoutState, NamedLayout, OldLayout};
pub use mappings::MapState;
pub use measures::{Measure, measure_of};
pub use overlaps::overlap_of;
pub use owners::{Holder, Ownership};
pub use pairs::{Overlap, Part};
pub use pass_facts::{PassFact, pass_fact_of};
pub use pass_states::{NoPass, PassState};
pub use passes::{MovingResource, OpenPass};
pub use reports::{Report, report_of};
pub use signals::SignalOrder;
pub use states::{State, state_of};
pub use subresources::CurrentLayout;
pub use transfers::OwnerState;

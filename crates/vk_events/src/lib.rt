//! The dependencies, waits and signals that happen as nodes come and commands are finished.
//!
//! Each happens once all commands before it are finished. Nodes come in reference order; of a
//! dependency, a wait or a signal the caller says after how many commands of each queue it comes,
//! and with each change how many commands at the front of each queue are finished.
//!
//! ```text
//! let mut events = Events::new(alloc);
//! events.add(&fill, [0, 0, 0, 0], [0, 0, 0, 0])?;     // a command on queue 0
//! events.add(&signal, [1, 0, 0, 0], [0, 0, 0, 0])?;   // a signal after it
//! events.take_next()                                  // None
//! events.advance([1, 0, 0, 0]);                       // all pieces of the command have run
//! events.take_next()                                  // the event of the signal
//! ```
//!
//! Only nodes that come take memory. The only error is want of it, or of numbers.
#![tactic(auto)]

mod event;
mod events;
mod hanging;
mod hooks;
mod laws;

pub use event::{Event, Range};
pub use events::Events;
pub use laws::happening_is_unseen;

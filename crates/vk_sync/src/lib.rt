//! The pieces of commands that may run next, where pieces run in any order that the rules allow.
//!
//! Commands come in reference order. Each is on one of four queues and waits for commands
//! before it: of each queue, for the first so many. It is run in pieces, each of them once. A piece
//! is ready when it hasn't run and all pieces of all commands that its command waits for have run.
//!
//! ```text
//! let mut ready = Ready::new(alloc);
//! ready.add(0, [0, 0, 0, 0], 2)?;         // command 0 on queue 0, in two pieces
//! ready.add(1, [1, 0, 0, 0], 1)?;         // command 1 on queue 1, after the first of queue 0
//! ready.count()                           // 2: the pieces of command 0
//! ready.finish(ready.nth(1));
//! ready.finish(ready.nth(0));
//! ready.nth(0)                            // the piece of command 1
//! ```
//!
//! Contracts see the list of the commands, each with the pieces that it has left. The only error is
//! want of memory, or of numbers, after which all is as it was.
#![tactic(auto)]

mod board;
mod flags;
mod left;
mod line;
mod ready;
mod tree;

pub use board::Command;
pub use left::PieceSet;
pub use ready::{Piece, Ready};

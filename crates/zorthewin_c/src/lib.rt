//! What a program in C calls, or in any language that calls C: `replay` and `explain` over the bytes
//! of a trace. The header is `c/zorthewin.h`.
//!
//! A call takes the bytes of a trace and a buffer of the caller's. It writes as much of the answer
//! there as there is room for, and how long the whole answer is. It keeps nothing, so threads may call
//! side by side.
#![tactic(auto)]

mod calls;

pub use calls::{zw_explain, zw_replay};

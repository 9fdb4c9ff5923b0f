//! `memory_steps`: bytes copied, filled, or accessed through the host's cache, over and over.
//!
//! ```text
//! memory_steps WORK [--bytes BYTES] [--turns N] [--clock]
//! ```
//!
//! `WORK` names what a turn does with so many bytes. `copy` copies them from one region to another;
//! `within` copies the first half of a region to the second half; `fill` fills a region with a word;
//! `write` and `read` move bytes of the host into a region and out of it. `cache-write` and
//! `cache-read` do so through the host's cache, and `cache-flush` writes back what is dirty there.
//! `all` does each of these. A line for each says how many turns there were, and has a sum of all
//! bytes in the end. With `--clock` it also says how long the turns took, and the shortest one. What
//! comes before a turn, as the write that a flush needs, isn't counted.
#![tactic(auto)]

mod buffers;
mod options;
mod plan;
mod spent;

use buffers::Buffers;
use plan::{Plan, Report, Work};
use spent::Spent;
use std::env;
use std::rt::{Clock, Env};
use std::time::Instant;

/// Makes the turns of one sort of work, and writes what they give.
fn make_turns<R: Print + AllocGlobal + Clock>(
    rt: &R,
    work: Work,
    plan: &Plan,
) -> anyhow::Result<()> {
    let mut buffers = Buffers::new(rt.alloc(), plan.bytes)?;
    let mut spent = Spent::new();
    for turn in 0..plan.turns {
        buffers.prepare(work, turn)?;
        let then = Instant::now(rt)?;
        buffers.turn(work)?;
        spent.add(then.elapsed(rt)?);
    }
    let turns = plan.turns;
    let bytes = buffers.size();
    let sum = buffers.sum();
    match plan.report {
        Report::Sum => println!(rt; "{work} {turns} of {bytes} sum {sum}")?,
        Report::Times => println!(rt; "{work} {turns} of {bytes} sum {sum} in {spent}")?,
    }
    Ok(())
}

/// Does what the arguments ask for.
fn perform<R: Env + Print + AllocGlobal + Clock>(rt: &R) -> anyhow::Result<()> {
    let alloc = rt.alloc();
    let arguments = env::args(rt)?.collect::<Vec<String>>(alloc)?;
    let plan = options::read(alloc, arguments.as_slice())?;
    match plan.work {
        Some(work) => make_turns(rt, work, &plan),
        None => {
            for work in &plan::ALL {
                make_turns(rt, *work, &plan)?;
            }
            Ok(())
        }
    }
}

fn main(rt: HostRuntime) -> anyhow::Result<()> {
    perform(&rt)
}

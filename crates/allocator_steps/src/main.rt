//! `allocator_steps`: random steps on one block of memory of which ranges are taken.
//!
//! ```text
//! allocator_steps KIND MODE [--size BYTES] [--steps N] [--seed N] [--live N] [--largest BYTES] ..
//! ```
//!
//! `KIND` names the block: `tlsf` and `mixed` by two-level lists, the second for resources of both
//! kinds; `stack`, `ring` and `double` linear ones. `MODE` is `print`, which writes each step and
//! its answer, one a line; `time`, which writes how many requests were made and answered, and a sum
//! of the answers; or `draw`, which makes the draws without a block, for what they take alone. The
//! same arguments give the same steps. With `--clock`, `time` and `draw` also write how long requests
//! took, and how long returns, from the first return on.
#![tactic(auto)]

mod drawing;
mod linear_block;
mod list_block;
mod live_block;
mod no_block;
mod observers;
mod options;
mod plan;
mod request;
mod starts;
mod steps;

use linear_block::LinearBlock;
use list_block::ListBlock;
use live_block::LiveBlock;
use no_block::NoBlock;
use observers::{Lines, Sum, Times};
use plan::{BlockKind, Mode, Plan, Report};
use std::rt::{Clock, Env};
use std::{env, io};

/// Makes the steps on a block, and writes what they give.
fn make_steps<R: Print + Alloc + Clock, B: LiveBlock>(
    rt: &R,
    block: &mut B,
    plan: &Plan,
) -> anyhow::Result<()> {
    if let Mode::Print = plan.mode {
        let mut lines = Lines::new(io::BufWriter::new(rt.alloc(), io::writer(rt))?);
        steps::run(block, plan, &mut lines)?;
        return lines.finish(block);
    }
    match plan.report {
        Report::Sum => {
            let mut sum = Sum::new();
            steps::run(block, plan, &mut sum)?;
            println!(rt; "{sum}")?;
        }
        Report::Times => {
            let mut times = Times::new(rt);
            steps::run(block, plan, &mut times)?;
            println!(rt; "{times}")?;
        }
    }
    Ok(())
}

/// Makes the steps that the arguments ask for.
fn perform<R: Env + Print + AllocGlobal + Clock>(rt: &R) -> anyhow::Result<()> {
    let alloc = rt.alloc();
    let arguments = env::args(rt)?.collect::<Vec<String>>(alloc)?;
    let plan = options::read(alloc, arguments.as_slice())?;
    if let Mode::Draw = plan.mode {
        return make_steps(rt, &mut NoBlock::new(alloc), &plan);
    }
    match plan.block {
        BlockKind::Tlsf => make_steps(rt, &mut ListBlock::plain(alloc, plan.size)?, &plan),
        BlockKind::Mixed => make_steps(rt, &mut ListBlock::mixed(alloc, plan.size)?, &plan),
        BlockKind::Stack | BlockKind::Double => {
            make_steps(rt, &mut LinearBlock::new(alloc, plan.size, false), &plan)
        }
        BlockKind::Ring => make_steps(rt, &mut LinearBlock::new(alloc, plan.size, true), &plan),
    }
}

fn main(rt: HostRuntime) -> anyhow::Result<()> {
    perform(&rt)
}

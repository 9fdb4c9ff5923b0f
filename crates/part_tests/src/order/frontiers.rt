//! What the next node comes after, and what it sees.

use crate::expect::expect;
use std::alloc::{AllocError, Global};
use std::test::Fail;
use vk_model::{Accesses, Action, Cmd, Dependency, Element, Length, Point, Sequence, Stages};
use vk_order::{Access, Act, Frontier, Line, NewNode};

fn command<'a>(place: usize, command: &'a Cmd) -> Point<'a> {
    Point {
        entry: 1,
        batch: 0,
        place,
        queue: 0,
        action: Action::Run(command),
    }
}

fn barrier(alloc: Global) -> Result<Cmd, AllocError> {
    let element = Element::Memory(Dependency {
        source_stages: Stages::TRANSFER,
        source_accesses: Accesses::TRANSFER_WRITE,
        destination_stages: Stages::TRANSFER,
        destination_accesses: Accesses::TRANSFER_WRITE,
    });
    let elements = Vec::from_array(alloc, [element])?;
    Ok(Cmd::Barrier {
        elements: Sequence::new(elements),
    })
}

/// What is known after a fill and a barrier.
fn after_barrier(alloc: Global, fill: &Cmd) -> Result<Frontier, AllocError> {
    let barrier = barrier(alloc)?;
    let mut frontier = Frontier::new(alloc);
    frontier.advance(&command(0, fill))?;
    frontier.advance(&command(1, &barrier))?;
    Ok(frontier)
}

/// Whether a node comes after the first command, and sees its write, and a read by it.
fn seen_by(new_node: &NewNode<'_>) -> (bool, bool, bool) {
    (
        new_node.follows(Line::Commands(0), 0),
        new_node.sees(0, 0, Access::Write),
        new_node.sees(0, 0, Access::Read),
    )
}

/// The same of a fill that comes next.
fn seen_by_fill(frontier: &Frontier, fill: &Cmd) -> Result<(bool, bool, bool), AllocError> {
    let new_node = frontier.new_node(&command(2, fill), &Act::Runs(fill))?;
    Ok(seen_by(&new_node))
}

#[test]
fn a_fill_sees_one_before_a_barrier(rt: HostRuntime) -> Result<(), Fail> {
    let fill = Cmd::Fill {
        buffer: 1,
        offset: 0,
        size: Length::Whole,
        word: 7,
    };
    let frontier = after_barrier(rt.alloc(), &fill)?;
    let seen = seen_by_fill(&frontier, &fill)?;
    expect(&rt, "commands", frontier.count(Line::Commands(0)), 1);
    expect(&rt, "what is seen", seen, (true, true, false));
    Ok(())
}

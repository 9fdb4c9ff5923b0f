use super::expect::expect;
use std::alloc::{AllocError, Global};
use std::process::Abort;
use std::test::Fail;
use vk_sync::{Piece, Ready};

/// What is done with the pieces, or asked of them.
enum Step {
    /// A command comes, on a queue, after the first so many of each queue, in so many pieces.
    Add(u32, [usize; 4], u64),
    /// Whether a command may come that is on a queue, after the first so many of each queue.
    MayCome(u32, [usize; 4], bool),
    /// Whether the first so many of each queue have run.
    IsMet([usize; 4], bool),
    /// How many pieces are ready.
    Count(u64),
    /// The ready pieces, in reference order: of a command the piece with an index.
    Ready(&'static [(usize, u64)]),
    /// The piece at a place runs: it is that of a command with an index.
    Run(u64, usize, u64),
    /// The piece in the middle runs, so often.
    RunMiddle(u64),
}

use Step::{Add, Count, IsMet, MayCome, Run, RunMiddle};

/// Two queues with waits across, and a command in two pieces.
static WAITS_ACROSS: [Step; 19] = [
    Add(0, [0, 0, 0, 0], 2),
    Add(1, [1, 0, 0, 0], 1),
    Add(1, [1, 1, 0, 0], 1),
    Add(0, [1, 2, 0, 0], 1),
    MayCome(0, [1, 1, 0, 0], false),
    MayCome(1, [3, 1, 0, 0], false),
    Count(2),
    Run(1, 0, 1),
    Count(1),
    Run(0, 0, 0),
    Count(1),
    Run(0, 1, 0),
    Run(0, 2, 0),
    MayCome(0, [1, 2, 0, 0], true),
    IsMet([1, 2, 0, 0], true),
    MayCome(0, [2, 2, 0, 0], true),
    IsMet([2, 2, 0, 0], false),
    Run(0, 3, 0),
    Count(0),
];

/// A command of 200 pieces, run from the last, the first and between, with one behind it.
static MANY_PIECES: [Step; 11] = [
    Add(2, [0, 0, 0, 0], 200),
    Add(2, [0, 0, 1, 0], 1),
    Run(199, 0, 199),
    Run(0, 0, 0),
    Run(99, 0, 100),
    Count(197),
    Run(98, 0, 99),
    Run(98, 0, 101),
    RunMiddle(195),
    Run(0, 1, 0),
    Count(0),
];

/// The ready pieces of two queues are in reference order.
static ALL_IN_ORDER: [Step; 4] = [
    Add(3, [0, 0, 0, 0], 1),
    Add(0, [0, 0, 0, 1], 1),
    Add(3, [0, 0, 0, 0], 2),
    Step::Ready(&[(0, 0), (2, 0), (2, 1)]),
];

/// Of three commands the second waits for the first: the first and the third are ready, and once the
/// first has run, the second and the third.
static ONE_OF_THREE_WAITS: [Step; 6] = [
    Add(0, [0, 0, 0, 0], 1),
    Add(0, [1, 0, 0, 0], 1),
    Add(1, [0, 0, 0, 0], 1),
    Step::Ready(&[(0, 0), (2, 0)]),
    Run(0, 0, 0),
    Step::Ready(&[(1, 0), (2, 0)]),
];

/// Adds a command that may come next.
fn add(
    rt: &impl Abort,
    ready: &mut Ready,
    queue: u32,
    before: [usize; 4],
    pieces: u64,
) -> Result<(), AllocError> {
    assert!(rt; ready.may_come(queue, before));
    ready.add(queue, before, pieces)
}

/// Runs the ready piece at a place, and answers it.
fn run(rt: &impl Abort, ready: &mut Ready, place: u64) -> Piece {
    assert!(rt; place < ready.count());
    let piece = ready.nth(place);
    ready.finish(piece);
    piece
}

/// Expects these pieces to be ready.
fn expect_ready(
    rt: &impl Abort,
    what: &str,
    ready: &Ready,
    wanted: &[(usize, u64)],
) -> Result<(), AllocError> {
    let pieces = ready.ready()?;
    expect(rt, what, pieces.len(), wanted.len());
    for (piece, pair) in pieces.iter().zip(wanted) {
        expect(rt, what, (piece.command, piece.index), *pair);
    }
    Ok(())
}

/// Runs the piece in the middle, so often.
fn run_middle(rt: &impl Abort, ready: &mut Ready, times: u64) {
    for _ in 0..times {
        let middle = ready.count() / 2;
        run(rt, ready, middle);
    }
}

/// Does a step, and expects what it says.
fn follow(rt: &impl Abort, what: &str, ready: &mut Ready, step: &Step) -> Result<(), AllocError> {
    match step {
        Add(queue, before, pieces) => add(rt, ready, *queue, *before, *pieces)?,
        MayCome(queue, before, holds) => {
            expect(rt, what, ready.may_come(*queue, *before), *holds);
        }
        IsMet(before, holds) => {
            assert!(rt; ready.may_come(0, *before));
            expect(rt, what, ready.is_met(*before), *holds);
        }
        Count(count) => expect(rt, what, ready.count(), *count),
        Step::Ready(wanted) => expect_ready(rt, what, ready, wanted)?,
        Run(place, command, index) => {
            let piece = run(rt, ready, *place);
            expect(rt, what, (piece.command, piece.index), (*command, *index));
        }
        RunMiddle(times) => run_middle(rt, ready, *times),
    }
    Ok(())
}

fn follow_steps(
    rt: &impl Abort,
    what: &str,
    ready: &mut Ready,
    steps: &[Step],
) -> Result<(), AllocError> {
    for step in steps {
        follow(rt, what, ready, step)?;
    }
    Ok(())
}

fn follow_all(
    rt: &impl Abort,
    alloc: Global,
    what: &str,
    steps: &[Step],
) -> Result<(), AllocError> {
    let mut ready = Ready::new(alloc);
    follow_steps(rt, what, &mut ready, steps)
}

#[test]
fn ready_pieces(rt: HostRuntime) -> Result<(), Fail> {
    let all = [
        ("waits across", WAITS_ACROSS.as_slice()),
        ("many pieces", MANY_PIECES.as_slice()),
        ("all in order", ALL_IN_ORDER.as_slice()),
        ("one of three waits", ONE_OF_THREE_WAITS.as_slice()),
    ];
    for (what, steps) in all {
        follow_all(&rt, rt.alloc(), what, steps)?;
    }
    Ok(())
}

/// A hundred thousand commands, none waiting for another.
fn many(rt: &impl Abort, alloc: Global) -> Result<Ready, AllocError> {
    let mut ready = Ready::new(alloc);
    for _ in 0..100_000 {
        add(rt, &mut ready, 0, [0, 0, 0, 0], 1)?;
    }
    Ok(ready)
}

/// Many commands, picked first, last and between.
#[test]
fn many_commands(rt: HostRuntime) -> Result<(), Fail> {
    let mut ready = many(&rt, rt.alloc())?;
    for turn in 0..100_000u64 {
        let count = ready.count();
        let place = match turn % 3 {
            0 => 0,
            1 => count.saturating_sub(1),
            _ => turn.checked_rem(count).unwrap_or(0),
        };
        run(&rt, &mut ready, place);
    }
    expect(&rt, "what is left", ready.count(), 0);
    Ok(())
}

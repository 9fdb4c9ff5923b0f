ghost use Rattle.std.specs.Prelude.{List};
ghost use Rattle.vk_model.specs.declared.entry.Entry.{Entry as AnyEntry};
ghost use Rattle.vk_model.specs.Run.Runs.{Step, Stage};
ghost use Rattle.vk_device.specs.Led.{Led, IsSoundTrace};

use super::counting::Counting;
use super::expect::expect;
use super::replays::{accepted, config, replayed_by};
use super::runs::table::TWO_FILLS;
use std::alloc::Global;
use std::process::Abort;
use std::test::Fail;
use vk_device::{Device, Piece, replay};
use vk_model::{Entry, Last, Scheduler};
use vk_trace::read_trace;

/// The pieces of the two fills.
static FILLS: [Piece; 2] = [
    Piece {
        command: 0,
        index: 0,
    },
    Piece {
        command: 1,
        index: 0,
    },
];

/// So many entries of a trace, how often the scheduler is asked, among how many options the last time,
/// and how many fills may run next in the end. There is a choice once, as the two fills may run and
/// the wait may not be applied; then one fill is the only option, and then the wait. After each fill it
/// is asked what the caches of four queues do, of four answers each. Nothing is asked for a submit of
/// nothing.
static ASKED: [(&str, usize, u64, u64, usize); 4] = [
    (TWO_FILLS, 3, 0, 0, 2),
    (TWO_FILLS, 4, 9, 4, 0),
    (TWO_FILLS, 6, 9, 4, 0),
    (r#"[["submit",0,[]]]"#, 1, 0, 0, 0),
];

fn offered(device: &Device<'_>) -> Result<Vec<Piece>, Fail> {
    let pieces = device.offered()?;
    Ok(pieces)
}

/// What may run next once the entries are replayed.
fn offered_after<S: Scheduler>(
    alloc: Global,
    entries: &[Entry],
    sched: &mut S,
) -> Result<Vec<Piece>, Fail> {
    let replayed = replayed_by(alloc, entries, sched)?;
    offered(&replayed.device)
}

fn expect_asked(
    rt: &impl Abort,
    alloc: Global,
    row: &(&str, usize, u64, u64, usize),
) -> Result<(), Fail> {
    let (text, count, times, options, fills) = *row;
    let entries = read_trace(alloc, text.as_bytes())?;
    let front = entries.as_slice().get(..count).ok_or("too few")?;
    let mut sched = Counting::new();
    let offered = offered_after(alloc, front, &mut sched)?;
    expect(rt, count, (sched.asked, sched.options), (times, options));
    expect(rt, count, Some(offered.as_slice()), FILLS.get(..fills));
    Ok(())
}

/// The scheduler is asked where there are two options or more, and after each piece.
#[test]
fn the_scheduler_is_asked_where_it_has_a_choice(rt: HostRuntime) -> Result<(), Fail> {
    for row in &ASKED {
        expect_asked(&rt, rt.alloc(), row)?;
    }
    Ok(())
}

/// Runs the piece at a place among those that may run next, and answers those, and those that may run
/// then.
fn stepped(device: &mut Device<'_>, place: u64) -> Result<(Vec<Piece>, Vec<Piece>), Fail>
    requires { (t : List AnyEntry) × (steps : List Step) × (s : Stage) × Led t steps s device.old × IsSoundTrace t }
{
    let offered = device.offered()?;
    if place >= device.offered_count() {
        return Err(Fail::from("fewer may run"));
    }
    let piece = device.nth_offered(place);
    device.step(piece).map_err(|_| "the device has failed")?;
    let left = device.offered()?;
    Ok((offered, left))
}

/// Replays entries and runs the second piece that may run then.
fn second_piece(alloc: Global, entries: &[Entry]) -> Result<(Vec<Piece>, Vec<Piece>), Fail> {
    let accepted = accepted(alloc, entries)?;
    let _entries = accepted.entries();
    let mut replayed = replay(alloc, &accepted, config(), &mut Last)?;
    stepped(&mut replayed.device, 1)
}

/// The same for the buffer, the semaphore and the submit of two fills.
fn second_fill(alloc: Global) -> Result<(Vec<Piece>, Vec<Piece>), Fail> {
    let entries = read_trace(alloc, TWO_FILLS.as_bytes())?;
    let front = entries.as_slice().get(..3).ok_or("too few")?;
    second_piece(alloc, front)
}

/// Where the last option is picked, entries come first: both fills may run after their submit. A step
/// runs its piece and no other.
#[test]
fn a_step_leaves_the_other_piece(rt: HostRuntime) -> Result<(), Fail> {
    let (offered, left) = second_fill(rt.alloc())?;
    expect(&rt, "both", Some(offered.as_slice()), FILLS.get(..2));
    expect(&rt, "the first", Some(left.as_slice()), FILLS.get(..1));
    Ok(())
}

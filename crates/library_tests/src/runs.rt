use super::counting::Counting;
use super::expect::expect;
use std::alloc::Global;
use std::process::Abort;
use vk_model::{Config, First, Last, Scheduler, Seeded};
use vk_run::{QueueCaches, run};
use vk_trace::{RunError, Watched};

mod image_table;
mod pass_table;
mod pool_table;
pub mod table;

use image_table::IMAGES;
use pass_table::PASSES;
use pool_table::POOLS;
use table::{
    CACHED_ACCESSES, CACHES, Ending, FILL_AND_READ, NO_MEMORY, NO_TRACE, NO_TRACES, REPLAYED, Row,
    TRACES, TWO_FILLS, UPLOADS,
};

/// Heaps of 4 MiB.
pub fn config() -> Config {
    match Config::new(4_194_304, 4_194_304) {
        Some(config) => config,
        None => unreachable!(),
    }
}

/// Which of the options is picked.
#[derive(Clone, Copy, Debug, PartialEq)]
enum Order {
    First,
    Last,
    Seed(u64),
}

/// Orders that are tried beside the first.
const ORDERS: [Order; 5] = [
    Order::Last,
    Order::Seed(0),
    Order::Seed(1),
    Order::Seed(2),
    Order::Seed(3),
];

/// Runs a trace that lies in memory, by what a scheduler picks, on a device with or without caches of
/// queues: how it ended, and what was written.
fn run_picked<S: Scheduler>(
    alloc: Global,
    input: &[u8],
    caches: QueueCaches,
    sched: &mut S,
) -> (Ending, Vec<u8>) {
    let mut reader = Watched::new(input);
    let mut writer = Watched::new(Vec::new(alloc));
    let ending = run(alloc, &mut reader, &mut writer, config(), caches, sched);
    (ending, writer.into_inner())
}

/// The same in an order.
fn run_in_order(
    alloc: Global,
    input: &[u8],
    order: Order,
    caches: QueueCaches,
) -> (Ending, Vec<u8>) {
    match order {
        Order::First => run_picked(alloc, input, caches, &mut First),
        Order::Last => run_picked(alloc, input, caches, &mut Last),
        Order::Seed(seed) => run_picked(alloc, input, caches, &mut Seeded::new(seed)),
    }
}

/// The same where the first option is picked, without caches of queues.
pub fn run_bytes(alloc: Global, input: &[u8]) -> (Ending, Vec<u8>) {
    run_in_order(alloc, input, Order::First, QueueCaches::Without)
}

/// Whether an allocation failed: one of the run, or that of the vector which is written to.
pub fn ran_out(ending: Ending) -> bool {
    ending == NO_MEMORY || ending == Err(RunError::WriteFault(0))
}

/// Expects that a run ends so and writes this. Where it ran out of memory it has written nothing, and
/// is run again: of all allocations at most one is made to fail.
fn expect_in_order(
    rt: &impl Abort,
    alloc: Global,
    input: &[u8],
    output: &str,
    ending: Ending,
    order: Order,
    caches: QueueCaches,
) {
    let (mut got, mut written) = run_in_order(alloc, input, order, caches);
    if ran_out(got) {
        assert!(rt; written.is_empty());
        (got, written) = run_in_order(alloc, input, order, caches);
    }
    let input_text = str::from_utf8(input).unwrap_or("bytes that are no text");
    expect(
        rt,
        input_text,
        (order, caches, got),
        (order, caches, ending),
    );
    expect(rt, input_text, written.as_slice(), output.as_bytes());
}

/// Expects that bytes are no trace.
fn expect_no_trace(rt: &impl Abort, alloc: Global, input: &[u8]) {
    expect_in_order(
        rt,
        alloc,
        input,
        "",
        NO_TRACE,
        Order::First,
        QueueCaches::Without,
    );
}

/// Expects of each trace what is written for it and how the run ends, with caches of queues and without, in
/// every order where it replays.
fn expect_rows(rt: &impl Abort, alloc: Global, rows: &[Row]) {
    for (input, output, ending) in rows {
        for caches in [QueueCaches::Without, QueueCaches::With] {
            let input = input.as_bytes();
            expect_in_order(rt, alloc, input, output, *ending, Order::First, caches);
            if *ending == REPLAYED {
                for order in ORDERS {
                    expect_in_order(rt, alloc, input, output, *ending, order, caches);
                }
            }
        }
    }
}

#[test]
fn traces(rt: HostRuntime) {
    expect_rows(&rt, rt.alloc(), &TRACES);
}

#[test]
fn uploads_and_caches(rt: HostRuntime) {
    expect_rows(&rt, rt.alloc(), &UPLOADS);
    expect_rows(&rt, rt.alloc(), &CACHES);
}

#[test]
fn images(rt: HostRuntime) {
    expect_rows(&rt, rt.alloc(), &IMAGES);
}

#[test]
fn pools(rt: HostRuntime) {
    expect_rows(&rt, rt.alloc(), &POOLS);
}

#[test]
fn passes(rt: HostRuntime) {
    expect_rows(&rt, rt.alloc(), &PASSES);
}

/// Some texts are no trace, nor are bytes that are no text, nor is a front of a trace.
#[test]
fn no_traces(rt: HostRuntime) {
    let alloc = rt.alloc();
    for input in &NO_TRACES {
        expect_no_trace(&rt, alloc, input.as_bytes());
    }
    expect_no_trace(&rt, alloc, b"[[\"map\",\xff]]");
    let bytes = FILL_AND_READ.as_bytes();
    for size in 0..bytes.len() {
        expect_no_trace(&rt, alloc, &bytes[..size]);
    }
}

/// The scheduler that is handed in is asked where two fills may run and the wait for them may not go, at
/// no other entry, and after each fill for the caches of four queues. It is asked for each of the two
/// atoms of 100 bytes, before each of the four entries that access them. With caches of queues it is asked as
/// often as without.
#[test]
fn the_scheduler_is_asked(rt: HostRuntime) {
    for caches in [QueueCaches::Without, QueueCaches::With] {
        let mut sched = Counting::new();
        let (ending, _) = run_picked(rt.alloc(), TWO_FILLS.as_bytes(), caches, &mut sched);
        expect(&rt, "two fills", (ending, sched.asked), (REPLAYED, 9));
        let mut sched = Counting::new();
        let input = CACHED_ACCESSES.as_bytes();
        let (ending, written) = run_picked(rt.alloc(), input, caches, &mut sched);
        expect(&rt, "two atoms", (ending, sched.asked), (REPLAYED, 8));
        expect(&rt, "a byte", written.as_slice(), b"5 aa\n");
    }
}

use clap::{Arg, ArgAction, ArgMatches, Command, value_parser};
use std::alloc::{AllocError, Global};
use vk_console::OptionsError;
use vk_model::Config;
use vk_run::QueueCaches;

/// Which of the pieces and entries that may come next is picked.
#[derive(Clone, Copy, Debug, Drop, PartialEq, Eq)]
pub enum Order {
    /// The first: pieces run as early as they can, in reference order.
    First,
    /// The last: pieces run as late as they can.
    Last,
    /// By the words of a generator that begins with this seed.
    Seed(u64),
}

/// What the command line asks for.
#[derive(Drop)]
pub struct Options {
    /// The sizes of the device's heaps.
    pub config: Config,
    /// Which order is tried.
    pub order: Order,
    /// Whether the device's queues have caches.
    pub caches: QueueCaches,
}

/// Bytes of each heap where nothing else is said.
const HEAP_BYTES: u64 = 4_194_304;

/// The command line of `replay`.
fn command<'a>(alloc: Global) -> Result<Command<'a>, AllocError> {
    let order = Arg::new(alloc, "order")
        .long("order")
        .value_name("ORDER")
        .value_parser(["first", "last", "seed"].as_slice())
        .default_value("first")
        .help("Which of the pieces of commands that may run next is run");
    let seed = Arg::new(alloc, "seed")
        .long("seed")
        .value_name("N")
        .value_parser(value_parser!(u64))
        .default_value("0")
        .help("Where --order seed begins");
    let caches = Arg::new(alloc, "caches")
        .long("caches")
        .action(ArgAction::SetTrue)
        .help("Replay on a device whose queues each keep a write-back cache");
    let heap0 = Arg::new(alloc, "heap0")
        .long("heap0")
        .value_name("BYTES")
        .value_parser(value_parser!(u64).range(65_536..=67_108_864))
        .default_value("4194304")
        .help("The size of heap 0, device memory");
    let heap1 = Arg::new(alloc, "heap1")
        .long("heap1")
        .value_name("BYTES")
        .value_parser(value_parser!(u64).range(65_536..=67_108_864))
        .default_value("4194304")
        .help("The size of heap 1, host memory");
    Command::new(alloc, "replay")
        .about(
            "Replays a trace of Vulkan transfers from standard input, or reports the first rule that it breaks",
        )
        .arg(order)?
        .arg(seed)?
        .arg(caches)?
        .arg(heap0)?
        .arg(heap1)
}

/// Which order is asked for. A seed is read, and not used, where another order is.
fn order_of(matches: &ArgMatches<'_>) -> Order {
    let seed = matches.get_one::<u64>("seed").unwrap_or(0);
    match matches.get_str("order") {
        Some("last") => Order::Last,
        Some("seed") => Order::Seed(seed),
        _ => Order::First,
    }
}

/// Whether caches of queues are asked for.
fn caches_of(matches: &ArgMatches<'_>) -> QueueCaches {
    if matches.get_flag("caches") {
        QueueCaches::With
    } else {
        QueueCaches::Without
    }
}

/// What the arguments ask for; the first one is the program's own name.
pub fn read(alloc: Global, arguments: &[String]) -> Result<Options, OptionsError> {
    let matches = command(alloc)?.try_get_matches_from(arguments)?;
    let heap0 = matches.get_one::<u64>("heap0").unwrap_or(HEAP_BYTES);
    let heap1 = matches.get_one::<u64>("heap1").unwrap_or(HEAP_BYTES);
    let order = order_of(&matches);
    let caches = caches_of(&matches);
    match Config::new(heap0, heap1) {
        Some(config) => Ok(Options {
            config,
            order,
            caches,
        }),
        None => Err(OptionsError::NoMemory),
    }
}

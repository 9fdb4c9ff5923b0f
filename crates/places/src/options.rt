use clap::{Arg, Command, value_parser};
use std::alloc::{AllocError, Global};
use vk_console::OptionsError;
use vk_model::Config;

/// What the command line asks for.
#[derive(Clone, Copy)]
pub struct Options {
    /// The sizes of the heaps in which allocations find room.
    pub config: Config,
    /// The only entry after which it is asked where everything lies; none where it is after each that
    /// changes it.
    pub after: Option<usize>,
}

/// Bytes of each heap where nothing else is said.
const HEAP_BYTES: u64 = 4_194_304;

/// The command line of `places`.
fn command<'a>(alloc: Global) -> Result<Command<'a>, AllocError> {
    let after = Arg::new(alloc, "after")
        .long("after")
        .value_name("ENTRY")
        .value_parser(value_parser!(u64))
        .help("Write the state after this entry alone");
    let heap0 = Arg::new(alloc, "heap0")
        .long("heap0")
        .value_name("BYTES")
        .value_parser(value_parser!(u64).range(65_536..=67_108_864))
        .default_value("4194304")
        .help("The size of heap 0, device memory");
    let heap1 = Arg::new(alloc, "heap1")
        .long("heap1")
        .value_name("BYTES")
        .value_parser(value_parser!(u64).range(65_536..=67_108_864))
        .default_value("4194304")
        .help("The size of heap 1, host memory");
    Command::new(alloc, "places")
        .about(
            "Writes as JSON where the resources of a trace of Vulkan transfers from standard input lie",
        )
        .arg(after)?
        .arg(heap0)?
        .arg(heap1)
}

/// What the arguments ask for; the first one is the program's own name.
pub fn read(alloc: Global, arguments: &[String]) -> Result<Options, OptionsError> {
    let matches = command(alloc)?.try_get_matches_from(arguments)?;
    let heap0 = matches.get_one::<u64>("heap0").unwrap_or(HEAP_BYTES);
    let heap1 = matches.get_one::<u64>("heap1").unwrap_or(HEAP_BYTES);
    let after = matches.get_one::<u64>("after").map(|entry| entry as usize);
    match Config::new(heap0, heap1) {
        Some(config) => Ok(Options { config, after }),
        None => Err(OptionsError::NoMemory),
    }
}

use clap::{Arg, ArgAction, Command, value_parser};
use std::alloc::{AllocError, Global};
use vk_console::OptionsError;
use vk_model::Config;

/// What the command line asks for.
#[derive(Drop)]
pub struct Options<'a> {
    /// The sizes of the heaps in which allocations find room.
    pub config: Config,
    /// Whether a trace that breaks a rule is written too.
    pub refused: bool,
    /// The file of the header that is written into the text.
    pub header: Option<&'a str>,
}

/// Bytes of each heap where nothing else is said.
const HEAP_BYTES: u64 = 4_194_304;

/// The command line of `emit`.
fn command<'a>(alloc: Global) -> Result<Command<'a>, AllocError> {
    let refused = Arg::new(alloc, "refused")
        .long("refused")
        .action(ArgAction::SetTrue)
        .help("Write a trace that breaks a rule, too, with no promised bytes");
    let header = Arg::new(alloc, "header")
        .long("header")
        .value_name("FILE")
        .help("Write this file into the text, in place of a line that includes zw_drive.h");
    let heap0 = Arg::new(alloc, "heap0")
        .long("heap0")
        .value_name("BYTES")
        .value_parser(value_parser!(u64).range(65_536..=67_108_864))
        .default_value("4194304")
        .help("The size of heap 0, device memory");
    let heap1 = Arg::new(alloc, "heap1")
        .long("heap1")
        .value_name("BYTES")
        .value_parser(value_parser!(u64).range(65_536..=67_108_864))
        .default_value("4194304")
        .help("The size of heap 1, host memory");
    Command::new(alloc, "emit")
        .about(
            "Writes a trace of Vulkan transfers from standard input as a program in C that performs it",
        )
        .arg(refused)?
        .arg(header)?
        .arg(heap0)?
        .arg(heap1)
}

/// What the arguments ask for; the first one is the program's own name.
pub fn read<'a>(alloc: Global, arguments: &'a [String]) -> Result<Options<'a>, OptionsError> {
    let matches = command(alloc)?.try_get_matches_from(arguments)?;
    let heap0 = matches.get_one::<u64>("heap0").unwrap_or(HEAP_BYTES);
    let heap1 = matches.get_one::<u64>("heap1").unwrap_or(HEAP_BYTES);
    let refused = matches.get_flag("refused");
    let header = matches.get_str("header");
    match Config::new(heap0, heap1) {
        Some(config) => Ok(Options {
            config,
            refused,
            header,
        }),
        None => Err(OptionsError::NoMemory),
    }
}

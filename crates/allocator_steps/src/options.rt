ghost use Rattle.std.specs.Prelude.{◌<◌, ◌≤◌, ◌^◌};

use crate::plan::{Alignment, BlockKind, Mode, Order, Plan, Report};
use crate::request::UNIT;
use clap::{Arg, ArgAction, ArgMatches, Command, Error, value_parser};
use std::alloc::{AllocError, Global};

/// The most bytes that a block may have.
const MOST_BYTES: u64 = 1_073_741_824;

/// An option that takes a number.
fn number<'a>(
    alloc: Global,
    name: &'a str,
    default: &'a str,
    most: i64,
    help: &'a str,
) -> Result<Arg<'a>, AllocError> {
    Ok(
        Arg::new(alloc, name)
            .long(name)
            .value_name("N")
            .value_parser(value_parser!(u64).range(0..=most))
            .default_value(default)
            .help(help),
    )
}

/// The command line.
fn command<'a>(alloc: Global) -> Result<Command<'a>, AllocError> {
    let block = Arg::new(alloc, "block")
        .required(true)
        .value_name("BLOCK")
        .value_parser(["tlsf", "mixed", "stack", "ring", "double"].as_slice())
        .help("The block");
    let mode = Arg::new(alloc, "mode")
        .required(true)
        .value_name("MODE")
        .value_parser(["print", "time", "draw"].as_slice())
        .help("What is done with the steps");
    let order = Arg::new(alloc, "order")
        .long("order")
        .value_name("ORDER")
        .value_parser(["first", "last", "any", "drawn"].as_slice())
        .default_value("drawn")
        .help("Which of the live ranges is given back");
    let align = Arg::new(alloc, "align")
        .long("align")
        .value_name("BYTES")
        .value_parser(["16", "64", "256", "drawn"].as_slice())
        .default_value("drawn")
        .help("What requests are aligned to");
    let clock = Arg::new(alloc, "clock")
        .long("clock")
        .action(ArgAction::SetTrue)
        .help("Tells how long requests and returns took, from the first return on");
    let command = Command::new(alloc, "allocator_steps")
        .about("Makes random steps on one block of memory of which ranges are taken")
        .arg(block)?
        .arg(mode)?
        .arg(order)?
        .arg(align)?
        .arg(clock)?;
    numbers(alloc, command)
}

/// The command line with the options that take numbers.
fn numbers<'a>(alloc: Global, command: Command<'a>) -> Result<Command<'a>, AllocError> {
    let most = i64::from(u32::MAX);
    command
        .arg(number(alloc, "size", "65536", 1_073_741_824, "The block's bytes")?)?
        .arg(number(alloc, "steps", "1000", i64::MAX, "How many steps are made")?)?
        .arg(number(alloc, "seed", "0", i64::MAX, "The generator's seed")?)?
        .arg(number(alloc, "live", "64", most, "How many ranges may be live")?)?
        .arg(number(
            alloc,
            "returns",
            "0",
            most,
            "How many are given back then; 0: drawn",
        )?)?
        .arg(number(
            alloc,
            "largest",
            "2048",
            most,
            "The most bytes of a request",
        )?)?
        .arg(number(
            alloc,
            "optimal",
            "0",
            most,
            "One of N requests is for an optimal image",
        )?)?
        .arg(number(
            alloc,
            "special",
            "0",
            most,
            "One of N is for the upper end, or below a limit",
        )?)
}

/// What the arguments ask for; the first one is the program's own name.
pub fn read(alloc: Global, arguments: &[String]) -> Result<Plan, Error> {
    let matches = command(alloc)?.try_get_matches_from(arguments)?;
    let block = block_of(&matches);
    let special = count_of(&matches, "special");
    Ok(Plan {
        block,
        mode: mode_of(&matches),
        report: if matches.get_flag("clock") {
            Report::Times
        } else {
            Report::Sum
        },
        size: block_bytes(&matches),
        steps: number_of(&matches, "steps"),
        seed: number_of(&matches, "seed"),
        live: number_of(&matches, "live"),
        returns: number_of(&matches, "returns"),
        units: units_of(&matches),
        alignment: alignment_of(&matches),
        order: order_of(&matches),
        optimal: count_of(&matches, "optimal"),
        special: if special == 0 && block == BlockKind::Double {
            2
        } else {
            special
        },
    })
}

fn number_of(matches: &ArgMatches<'_>, name: &str) -> u64 {
    matches.get_one::<u64>(name).unwrap_or(0)
}

fn count_of(matches: &ArgMatches<'_>, name: &str) -> u32 {
    u32::try_from(number_of(matches, name)).unwrap_or(u32::MAX)
}

/// The bytes of the block, some and not too many.
fn block_bytes(matches: &ArgMatches<'_>) -> u64
    ensures some { 0 < result }
    ensures bound { result < 2 ^ 32 }
{
    number_of(matches, "size").min(MOST_BYTES).max(UNIT)
}

/// The most units of a request, one at least.
fn units_of(matches: &ArgMatches<'_>) -> u32
    ensures { 0 < result }
{
    (count_of(matches, "largest") / UNIT as u32).max(1)
}

fn block_of(matches: &ArgMatches<'_>) -> BlockKind {
    match matches.get_str("block") {
        Some("mixed") => BlockKind::Mixed,
        Some("stack") => BlockKind::Stack,
        Some("ring") => BlockKind::Ring,
        Some("double") => BlockKind::Double,
        _ => BlockKind::Tlsf,
    }
}

fn mode_of(matches: &ArgMatches<'_>) -> Mode {
    match matches.get_str("mode") {
        Some("time") => Mode::Time,
        Some("draw") => Mode::Draw,
        _ => Mode::Print,
    }
}

fn order_of(matches: &ArgMatches<'_>) -> Order {
    match matches.get_str("order") {
        Some("first") => Order::First,
        Some("last") => Order::Last,
        Some("any") => Order::Any,
        _ => Order::Drawn,
    }
}

fn alignment_of(matches: &ArgMatches<'_>) -> Alignment {
    match matches.get_str("align") {
        Some("16") => Alignment::Narrow,
        Some("64") => Alignment::Middle,
        Some("256") => Alignment::Wide,
        _ => Alignment::Drawn,
    }
}

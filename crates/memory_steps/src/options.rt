ghost use Rattle.std.specs.Prelude.{◌≤◌, ◌^◌};

use crate::plan::{Plan, Report, Work};
use clap::{Arg, ArgAction, ArgMatches, Command, Error, value_parser};
use std::alloc::{AllocError, Global};

/// The least and the most bytes that a region may have.
const LEAST_BYTES: u64 = 8;

const MOST_BYTES: u64 = 1_073_741_824;

/// The command line.
fn command<'a>(alloc: Global) -> Result<Command<'a>, AllocError> {
    let work = Arg::new(alloc, "work")
        .required(true)
        .value_name("WORK")
        .value_parser([
            "copy",
            "within",
            "fill",
            "write",
            "read",
            "cache-write",
            "cache-flush",
            "cache-read",
            "all",
        ]
        .as_slice())
        .help("What a turn does");
    let clock = Arg::new(alloc, "clock")
        .long("clock")
        .action(ArgAction::SetTrue)
        .help("Tells how long the turns took, and the shortest one");
    let bytes = number(
        alloc,
        "bytes",
        "65536",
        1_073_741_824,
        "The bytes of a region",
    )?;
    let turns = number(
        alloc,
        "turns",
        "16",
        i64::from(u32::MAX),
        "How many turns are made",
    )?;
    Command::new(alloc, "memory_steps")
        .about("Moves bytes of memory over and over")
        .arg(work)?
        .arg(clock)?
        .arg(bytes)?
        .arg(turns)
}

/// An option that takes a number.
fn number<'a>(
    alloc: Global,
    name: &'a str,
    default: &'a str,
    most: i64,
    help: &'a str,
) -> Result<Arg<'a>, AllocError> {
    Ok(
        Arg::new(alloc, name)
            .long(name)
            .value_name("N")
            .value_parser(value_parser!(u64).range(0..=most))
            .default_value(default)
            .help(help),
    )
}

/// What the arguments ask for; the first one is the program's own name.
pub fn read(alloc: Global, arguments: &[String]) -> Result<Plan, Error> {
    let matches = command(alloc)?.try_get_matches_from(arguments)?;
    Ok(Plan {
        work: work_of(&matches),
        report: if matches.get_flag("clock") {
            Report::Times
        } else {
            Report::Sum
        },
        bytes: bytes_of(&matches),
        turns: u32::try_from(number_of(&matches, "turns")).unwrap_or(u32::MAX),
    })
}

fn number_of(matches: &ArgMatches<'_>, name: &str) -> u64 {
    matches.get_one::<u64>(name).unwrap_or(0)
}

/// The bytes of a region, some and not too many.
fn bytes_of(matches: &ArgMatches<'_>) -> u64
    ensures some { 8 ≤ result }
    ensures bound { result ≤ 2 ^ 30 }
{
    number_of(matches, "bytes").min(MOST_BYTES).max(LEAST_BYTES)
}

fn work_of(matches: &ArgMatches<'_>) -> Option<Work> {
    match matches.get_str("work") {
        Some("copy") => Some(Work::Copy),
        Some("within") => Some(Work::Within),
        Some("fill") => Some(Work::Fill),
        Some("write") => Some(Work::Write),
        Some("read") => Some(Work::Read),
        Some("cache-write") => Some(Work::CacheWrite),
        Some("cache-flush") => Some(Work::CacheFlush),
        Some("cache-read") => Some(Work::CacheRead),
        _ => None,
    }
}

use clap::error::ErrorKind;
use clap::{Arg, ArgAction, ArgMatches, Command};
use std::alloc::{AllocError, Global};
use vk_console::{OptionsError, VERSION};
use vk_explain::{Form, Wanted};

/// What the command line asks for.
#[derive(Drop)]
pub struct Options<'a> {
    /// What is asked of each trace.
    pub wanted: Wanted,
    /// The file with the calls that points stand for, if one is named.
    pub names: Option<&'a str>,
    /// The files of the traces, in this order; standard input where none is named.
    pub files: Vec<&'a str>,
}

/// The name of a file that stands for standard input.
pub const STANDARD_INPUT: &str = "-";

/// What the help says after the options.
const STATUSES: &str = "\
Exit status: 0 if each trace is accepted, 1 if one breaks a rule, 2 if an input isn't a valid trace,
4 if memory runs out, 5 if a file can't be read or the output can't be written, 6 if the command line
is refused, 7 if the file of --names isn't such a file. Of several traces it is the greatest.";

/// The command line of `explain`.
fn command<'a>(alloc: Global) -> Result<Command<'a>, AllocError> {
    let json = Arg::new(alloc, "json")
        .long("json")
        .action(ArgAction::SetTrue)
        .help("Print an object of JSON on a line for each trace, instead of text");
    let repaired = Arg::new(alloc, "repaired")
        .long("repaired")
        .action(ArgAction::SetTrue)
        .help(
            "Print the repaired trace; what changes is told on standard error. With --json, add both to the object",
        );
    let names = Arg::new(alloc, "names")
        .long("names")
        .value_name("FILE")
        .conflicts_with("repaired")?
        .help("Say which call of a capture each point is, by a file of from_capture.py --names");
    let files = Arg::new(alloc, "file")
        .value_name("FILE")
        .num_args(0..)
        .action(ArgAction::Append)
        .help("Files with a trace each; without one, and for -, standard input is read");
    Command::new(alloc, "explain")
        .version(VERSION)
        .about(
            "Explains which rule a trace of Vulkan transfers breaks, where, and how to repair it",
        )
        .after_help(STATUSES)
        .arg(json)?
        .arg(repaired)?
        .arg(names)?
        .arg(files)
}

/// What the arguments ask for; the first one is the program's own name.
pub fn read<'a>(alloc: Global, arguments: &'a [String]) -> Result<Options<'a>, OptionsError> {
    let mut command = command(alloc)?;
    let matches = command.try_get_matches_from_mut(arguments)?;
    let wanted = wanted_by(&matches);
    let files = files_of(alloc, &matches)?;
    if wanted == Wanted::Repaired && files.len() > 1 {
        let message = "--repaired takes one trace, and several files are named";
        let error = command.error(ErrorKind::ArgumentConflict, message)?;
        return Err(OptionsError::Refused(error));
    }
    let names = matches.get_str("names");
    Ok(Options {
        wanted,
        names,
        files,
    })
}

fn wanted_by(matches: &ArgMatches<'_>) -> Wanted {
    match (matches.get_flag("json"), matches.get_flag("repaired")) {
        (false, false) => Wanted::Explained(Form::Text),
        (true, false) => Wanted::Explained(Form::Json),
        (false, true) => Wanted::Repaired,
        (true, true) => Wanted::ExplainedAndRepaired,
    }
}

fn files_of<'a>(alloc: Global, matches: &ArgMatches<'a>) -> Result<Vec<&'a str>, AllocError> {
    let mut files = Vec::new(alloc);
    if let Some(named) = matches.get_strs("file") {
        files.extend_from_slice(named)?;
    }
    if files.is_empty() {
        files.push(STANDARD_INPUT)?;
    }
    Ok(files)
}

ghost use Rattle.std.specs.Prelude.{◌≡◌, max};

use crate::exit::exit_status;
use crate::options::STANDARD_INPUT;
use crate::terminals::{Terminals, allows_colours};
use std::fs::{File, OpenFile};
use std::io;
use std::io::Read;
use std::rt::{Env, Files};
use vk_calls::Calls;
use vk_console::{complain, error_status};
use vk_explain::{Presentation, Wanted, run};
use vk_trace::{RunError, Watched};

/// What is said where standard input is a terminal.
const READING: &str = "reading a trace from standard input";

/// How the traces so far went.
#[derive(Clone, Copy)]
struct Course {
    /// The greatest exit status.
    status: u8,
    /// Whether nothing was written.
    is_first: bool,
    /// Whether the output takes no more.
    is_broken: bool,
}

impl Course {
    fn after(self, status: u8, is_written: bool, is_broken: bool) -> Course
        ensures { result.status ≡ max self.status status }
    {
        Course {
            status: self.status.max(status),
            is_first: self.is_first && !is_written,
            is_broken,
        }
    }
}

/// Explains the traces of some files one after another, with the calls of their points if there are any.
/// Answers the greatest of their exit statuses.
pub fn explain_all<R: Env + Files + Input + Print + Eprint + AllocGlobal>(
    rt: &R,
    wanted: Wanted,
    calls: Option<&Calls>,
    files: &[&str],
    terminals: Terminals,
) -> u8 {
    let is_coloured = terminals.output && allows_colours(rt);
    let mut course = Course {
        status: 0,
        is_first: true,
        is_broken: false,
    };
    for file in files {
        let presentation = Presentation {
            name: if files.len() > 1 { Some(*file) } else { None },
            is_first: course.is_first,
            is_coloured,
            calls,
        };
        course = if *file == STANDARD_INPUT {
            explain_input(rt, wanted, &presentation, course, terminals)
        } else {
            explain_file(rt, *file, wanted, &presentation, course)
        };
        if course.is_broken {
            break;
        }
    }
    course.status
}

/// Explains the trace of standard input.
fn explain_input<R: Input + Print + Eprint + AllocGlobal>(
    rt: &R,
    wanted: Wanted,
    presentation: &Presentation<'_>,
    course: Course,
    terminals: Terminals,
) -> Course {
    if terminals.input {
        let _unprinted = eprintln!(rt; "{READING}").is_err();
    }
    explain_from(
        rt,
        rt.reader(),
        presentation.name,
        wanted,
        presentation,
        course,
    )
}

/// Explains the trace of a file.
fn explain_file<R: Files + Print + Eprint + AllocGlobal>(
    rt: &R,
    file: &str,
    wanted: Wanted,
    presentation: &Presentation<'_>,
    course: Course,
) -> Course {
    match opened(rt, file) {
        Ok(reader) => explain_from(rt, reader, Some(file), wanted, presentation, course),
        Err(error) => {
            let _unprinted = eprintln!(rt; "{file}: {error}").is_err();
            course.after(error_status(RunError::ReadFault), false, false)
        }
    }
}

/// A file, opened to be read. A directory is refused as what can't be read.
fn opened<R: Files>(rt: &R, file: &str) -> io::Result<R::File> {
    let opened = File::open(rt, file)?;
    if opened.metadata()?.is_dir() {
        return Err(io::Error::from(io::ErrorKind::IsADirectory));
    }
    Ok(opened)
}

/// Explains the trace of a reader, which has a name where it is told.
fn explain_from<I: Read + Drop, R: Print + Eprint + AllocGlobal>(
    rt: &R,
    reader: I,
    name: Option<&str>,
    wanted: Wanted,
    presentation: &Presentation<'_>,
    course: Course,
) -> Course {
    let mut reader = Watched::new(reader);
    let mut writer = Watched::new(io::writer(rt));
    let mut changes = String::new(rt.alloc());
    match run(
        rt.alloc(),
        &mut reader,
        &mut writer,
        wanted,
        presentation,
        &mut changes,
    ) {
        Ok(judgment) => {
            let _unprinted = eprint!(rt; "{changes}").is_err();
            course.after(exit_status(judgment), true, false)
        }
        Err(error) => {
            let is_broken = matches!(error, RunError::WriteFault(_));
            let status = match name {
                Some(name) if !is_broken => blame(rt, name, error),
                _ => complain(rt, error),
            };
            course.after(status, is_broken, is_broken)
        }
    }
}

/// Says on standard error why an input isn't explained, and answers the exit status.
fn blame(rt: &impl Eprint, name: &str, error: RunError) -> u8 {
    let _unprinted = eprintln!(rt; "{name}: {error}").is_err();
    error_status(error)
}

ghost use Rattle.std.specs.Prelude.{◌≡◌, false};

use crate::texts::{refusal_text, walk_text};
use crate::walking::walk_of;
use std::alloc::Global;
use std::io::{Read, Write};
use vk_model::Config;
use vk_trace::{ReadTraceError, RunError, Watched, read_all, read_trace, write_all};
use vk_validate::{Verdict, validate};

/// What was told of a trace.
#[derive(Clone, Copy, Debug, PartialEq, Eq)]
pub enum Told {
    /// Where everything lies, through all entries.
    Whole,
    /// The same, up to an entry that finds no room.
    Stopped,
    /// The trace breaks a rule.
    Refused,
}

/// What is told of an input.
#[derive(Drop)]
pub struct Listing {
    /// What the text tells.
    pub told: Told,
    /// An object of JSON, with a line for each state.
    pub text: String,
}

/// Reads a trace to its end, and writes where everything lies as JSON: after each entry that changes
/// that, or after one entry alone. Nothing is written before the whole text is built. Nothing is flushed.
///
/// # Errors
///
/// Those of reading, of writing, `NotTrace` and `NoMemory`.
pub fn run<R: Read, W: Write>(
    alloc: Global,
    reader: &mut Watched<R>,
    writer: &mut Watched<W>,
    config: Config,
    after: Option<usize>,
) -> Result<Told, RunError>
    requires reads { reader.old.failed ≡ false }
    requires writes { writer.old.failed ≡ false }
{
    let input = read_all(alloc, reader)?;
    match listing_of(alloc, &input, config, after) {
        Ok(listing) => {
            write_all(writer, listing.text.as_bytes())?;
            Ok(listing.told)
        }
        Err(ReadTraceError::NotTrace) => Err(RunError::NotTrace),
        Err(ReadTraceError::NoMemory) => Err(RunError::NoMemory),
    }
}

/// What is told of the bytes of an input.
///
/// # Errors
///
/// `NotTrace` where the bytes are no trace, and `NoMemory`.
pub fn listing_of(
    alloc: Global,
    input: &[u8],
    config: Config,
    after: Option<usize>,
) -> Result<Listing, ReadTraceError> {
    let entries = read_trace(alloc, input)?;
    match validate(alloc, &entries)? {
        Verdict::Refused(at, rule) => Ok(Listing {
            told: Told::Refused,
            text: refusal_text(alloc, at, rule)?,
        }),
        Verdict::Accepted(accepted) => {
            let walked = walk_of(alloc, &accepted, config, after)?;
            Ok(Listing {
                told: match walked.stop {
                    Some(_) => Told::Stopped,
                    None => Told::Whole,
                },
                text: walk_text(alloc, &walked, &entries)?,
            })
        }
    }
}

use std::alloc::{AllocError, Global};
use vk_model::At;

/// Where something begins in the text of a trace. Both numbers count from 1.
#[derive(Clone, Copy, Debug, PartialEq, Eq)]
pub struct InputPlace {
    /// The line.
    pub line: usize,
    /// The byte in the line.
    pub column: usize,
}

/// Where a point of a trace is written in its text, or none where the text has no such point. It looks
/// at brackets, commas and quotes alone, so it is for texts that are a trace.
pub fn place_of(input: &[u8], at: At) -> Option<InputPlace> {
    let start = match at {
        At::Entry(e) => start_of(input, &[0, e]),
        At::Command(e, b, c) => start_of(input, &[0, e, BATCHES, b, COMMANDS, c]),
        At::Wait(e, b, k) => start_of(input, &[0, e, BATCHES, b, WAITS, k]),
        At::Signal(e, b, k) => start_of(input, &[0, e, BATCHES, b, SIGNALS, k]),
    }?;
    Some(line_and_column(input, start))
}

/// Adds the JSON pointer (RFC 6901) to a point in a trace.
pub fn push_pointer(out: &mut String, at: At) -> Result<(), AllocError> {
    match at {
        At::Entry(e) => write!(out, "/{e}"),
        At::Command(e, b, c) => write!(out, "/{e}/2/{b}/1/{c}"),
        At::Wait(e, b, k) => write!(out, "/{e}/2/{b}/0/{k}"),
        At::Signal(e, b, k) => write!(out, "/{e}/2/{b}/2/{k}"),
    }
}

/// Where the member that these numbers lead to is written, in a text of JSON without objects.
pub fn place_of_member(
    alloc: Global,
    input: &[u8],
    path: &[usize],
) -> Result<Option<InputPlace>, AllocError> {
    let mut whole = Vec::new(alloc);
    whole.push(0usize)?;
    whole.extend_from_slice(path)?;
    match start_of(input, whole.as_slice()) {
        Some(start) => Ok(Some(line_and_column(input, start))),
        None => Ok(None),
    }
}

/// The member of a submit that has its batches.
const BATCHES: usize = 2;

/// The member of a batch that has its waits.
const WAITS: usize = 0;

/// The member of a batch that has its commands.
const COMMANDS: usize = 1;

/// The member of a batch that has its signals.
const SIGNALS: usize = 2;

/// A walk over the text of lists within lists, down to one member.
#[derive(Drop)]
struct Walk<'a> {
    /// The number of a member of the text, of that member, and so on.
    path: &'a [usize],
    /// How many lists of the path are open.
    entered: usize,
    /// How many lists are open.
    depth: usize,
    /// The number of the member in the innermost list of the path that is open.
    member: usize,
    /// Whether a member comes next.
    before_member: bool,
    /// Whether the walk is inside a string.
    quoted: bool,
    /// Whether a backslash was just before.
    escaped: bool,
}

impl Walk<'_> {
    /// Takes the next byte, and says whether the member that is looked for begins with it.
    fn step(&mut self, byte: u8) -> bool {
        if self.quoted {
            self.step_in_string(byte);
            return false;
        }
        match byte {
            b' ' | b'\n' | b'\r' | b'\t' => false,
            b',' => {
                if self.depth == self.entered {
                    self.member = self.member.saturating_add(1);
                    self.before_member = true;
                }
                false
            }
            b']' | b'}' => {
                self.depth = self.depth.saturating_sub(1);
                false
            }
            _ => self.step_into(byte),
        }
    }

    fn step_in_string(&mut self, byte: u8) {
        if self.escaped {
            self.escaped = false;
        } else if byte == b'\\' {
            self.escaped = true;
        } else if byte == b'"' {
            self.quoted = false;
        }
    }

    /// Takes a byte of a value.
    fn step_into(&mut self, byte: u8) -> bool {
        let begins = self.before_member && self.depth == self.entered;
        self.before_member = false;
        let on_path = begins && self.path.get(self.entered).copied() == Some(self.member);
        if on_path && self.entered.saturating_add(1) == self.path.len() {
            return true;
        }
        if on_path && byte == b'[' {
            self.entered = self.entered.saturating_add(1);
            self.member = 0;
            self.before_member = true;
        }
        match byte {
            b'"' => self.quoted = true,
            b'[' | b'{' => self.depth = self.depth.saturating_add(1),
            _ => {}
        }
        false
    }
}

/// The index behind the array, the object or the string that begins at an index.
pub fn end_of(input: &[u8], start: usize) -> usize {
    let mut walk = Walk {
        path: &[],
        entered: 0,
        depth: 0,
        member: 0,
        before_member: false,
        quoted: false,
        escaped: false,
    };
    for (index, byte) in input.iter().enumerate() {
        if index >= start {
            let _begins = walk.step(*byte);
            if walk.depth == 0 && !walk.quoted {
                return index.saturating_add(1);
            }
        }
    }
    input.len()
}

/// The index at which a member begins; none where a list on the way to it ends before.
pub fn start_of(input: &[u8], path: &[usize]) -> Option<usize> {
    let mut walk = Walk {
        path,
        entered: 0,
        depth: 0,
        member: 0,
        before_member: true,
        quoted: false,
        escaped: false,
    };
    for (index, byte) in input.iter().enumerate() {
        if walk.step(*byte) {
            return Some(index);
        }
        if walk.depth < walk.entered {
            return None;
        }
    }
    None
}

/// The line and the column of an index.
pub fn line_and_column(input: &[u8], index: usize) -> InputPlace {
    let mut place = InputPlace { line: 1, column: 1 };
    for byte in input.iter().take(index) {
        if *byte == b'\n' {
            place = InputPlace {
                line: place.line.saturating_add(1),
                column: 1,
            };
        } else {
            place.column = place.column.saturating_add(1);
        }
    }
    place
}

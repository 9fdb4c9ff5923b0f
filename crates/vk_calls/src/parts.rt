ghost use Rattle.std.specs.Prelude.{◌≡◌, ◌≤◌, ◌++◌, length};
ghost use Rattle.vk_calls.specs.Inner.Adding.{AreParts};

/// An explanation in parts. Only those of the trace itself name its points; a repair names those of
/// another trace.
#[derive(Clone, Copy)]
pub struct Parts<'a> {
    /// The verdict, as a line of its own; all of what is said where there is no trace.
    pub verdict: &'a [u8],
    /// What is said of the trace.
    pub said: &'a [u8],
    /// A repair, if there is one.
    pub repair: &'a [u8],
    /// The notes on the trace behind it.
    pub notes: &'a [u8],
}

/// The parts of lines.
pub fn parts_of_lines(text: &[u8]) -> Parts<'_>
    ensures { AreParts text.now result }
{
    if text.starts_with(b"no trace") {
        return whole(text);
    }
    let (verdict, rest) = text.split_at(place_of(text, b"\n"));
    let repair = place_of(rest, b"\n  repair").min(place_of(rest, b"\n  weaker repair"));
    parted(verdict, rest, repair, b"\nnote: ")
}

/// The parts of an object.
pub fn parts_of_object(text: &[u8]) -> Parts<'_>
    ensures { AreParts text.now result }
{
    if text.starts_with(b"{\"verdict\":\"no trace\"") {
        return whole(text);
    }
    let (verdict, rest) = text.split_at(0);
    parted(
        verdict,
        rest,
        place_of(rest, b",\"repair\":"),
        b",\"notes\":",
    )
}

/// Parts behind a verdict: what is said, up to where a repair begins, that repair, and the notes, which
/// begin with these words.
fn parted<'a>(verdict: &'a [u8], rest: &'a [u8], repair: usize, notes: &[u8]) -> Parts<'a>
    requires { repair ≤ length rest.now }
    ensures { AreParts (verdict.entry.now ++ rest.entry.now) result }
{
    let (said, behind) = rest.split_at(repair);
    let (repair, notes) = behind.split_at(place_of(behind, notes));
    Parts {
        verdict,
        said,
        repair,
        notes,
    }
}

/// A text in which no point is named.
fn whole(text: &[u8]) -> Parts<'_>
    ensures { AreParts text.entry.now result }
{
    Parts {
        verdict: text,
        said: b"",
        repair: b"",
        notes: b"",
    }
}

/// Where these words begin in a text first; its length where they don't.
fn place_of(text: &[u8], words: &[u8]) -> usize
    ensures { result ≤ length text.now }
{
    for place in 0..text.len() {
        if let Some(rest) = text.get(place..) {
            if rest.starts_with(words) {
                return place;
            }
        }
    }
    text.len()
}

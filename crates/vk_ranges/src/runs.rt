use crate::after::RunsAfter;
use crate::value::RangeValue;

/// Indices in a row that have one value, as `overlapping` gives them.
#[derive(Drop)]
pub struct Run<'a, T> {
    /// The first index.
    pub start: u64,
    /// The index after the last one.
    pub end: u64,
    /// The value of each of the indices.
    pub value: &'a T,
}

/// The runs that overlap a range, in order, each cut to it.
#[derive(Drop)]
pub struct Overlapping<'a, T> {
    pub(crate) runs: RunsAfter<'a, T>,
    pub(crate) start: u32,
    pub(crate) end: u32,
}

impl<'a, T: RangeValue> Iterator for Overlapping<'a, T> {
    ghost use Rattle.std.specs.Iterator.{YieldsFirstBy, item_count};
    ghost use Rattle.vk_ranges.specs.Overlaps.{piece_of, pieces_left};

    type Item = Run<'a, T>;

    ghost next_gives = { YieldsFirstBy piece_of pieces_left };

    ghost remaining = { item_count pieces_left };

    fn next(&mut self) -> Option<Run<'a, T>> {
        if self.start >= self.end {
            return None;
        }
        let (end, value) = self.runs.next()?;
        let start = self.start;
        self.start = self.end.min(end);
        Some(Run {
            start: u64::from(start),
            end: u64::from(self.start),
            value,
        })
    }
}

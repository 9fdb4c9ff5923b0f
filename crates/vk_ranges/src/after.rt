use crate::changes::Near;
use crate::chunk::Chunk;
use std::marker::Model;

/// The runs after an index, in order. Contracts see the list of those that are left.
#[derive(Drop)]
pub(crate) struct RunsAfter<'a, T> {
    /// Those of the chunk that the next run is in.
    pub(crate) here: &'a [(u32, T)],
    /// The chunks after that one.
    pub(crate) later: &'a [Chunk<T>],
}

impl<'a, T> Model for RunsAfter<'a, T> {
    ghost use Rattle.std.specs.Prelude.{List, ◌++◌, ℕ};
    ghost use Rattle.vk_ranges.specs.Inner.Chunks.{joined};

    ghost Value = { List (ℕ × T) };

    ghost view = { λ m. m.here.now ++ joined m.later.now };
}

impl<'a, T> RunsAfter<'a, T> {
    /// Where to look first for the end of the run that came last.
    pub(crate) fn near(&self) -> Near {
        Near {
            chunks: self.later.len(),
            runs: self.here.len(),
        }
    }
}

impl<'a, T> Iterator for RunsAfter<'a, T> {
    ghost use Rattle.std.specs.Iterator.{YieldsFirstBy, item_count};

    type Item = (u32, &'a T);

    ghost next_gives = { YieldsFirstBy (λ run. (run.0, run.1.now)) (λ left. left) };

    ghost remaining = { item_count (λ left. left) };

    fn next(&mut self) -> Option<(u32, &'a T)> {
        while self.here.is_empty() {
            let (chunk, later) = self.later.split_first()?;
            self.here = &chunk.runs;
            self.later = later;
        }
        let (run, here) = self.here.split_first()?;
        self.here = here;
        Some((run.0, &run.1))
    }
}

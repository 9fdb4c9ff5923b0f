ghost use Rattle.std.specs.Prelude.{◌≡◌, ◌<◌, ◌≤◌, ◌&&◌, ◌==◌};
ghost use Rattle.vk_lag.specs.Inner.{IsPart};

/// How many bytes share a mark.
pub(crate) const CHUNK: usize = 2048;

/// Some bytes of one chunk.
#[derive(Clone, Copy, PartialEq, Eq, Debug)]
pub(crate) struct Part {
    /// The number of the chunk.
    pub(crate) chunk: usize,
    /// Where the chunk begins.
    pub(crate) first: usize,
    /// Where the chunk ends.
    pub(crate) stop: usize,
    /// The first of the bytes.
    pub(crate) low: usize,
    /// The one behind the last.
    pub(crate) high: usize,
}

impl Part {
    /// The part of the bytes from byte `low` to before byte `high` that lies in the first of their chunks.
    pub(crate) fn of(size: usize, low: usize, high: usize) -> Part
        requires some { low < high }
        requires room { high ≤ size }
        ensures part { IsPart size result }
        ensures low { result.low ≡ low }
        ensures high { result.high ≤ high }
    {
        let first = low - low % CHUNK;
        let stop = first + CHUNK.min(size - first);
        Part {
            chunk: low / CHUNK,
            first,
            stop,
            low,
            high: high.min(stop),
        }
    }

    /// Whether these are all bytes of the chunk.
    pub(crate) fn is_whole(&self) -> bool
        ensures { result ≡ (self.now.low == self.now.first && self.now.high == self.now.stop) }
    {
        self.low == self.first && self.high == self.stop
    }
}

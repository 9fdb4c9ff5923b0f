ghost use Rattle.std.specs.Prelude.{◌≡◌, ◌+◌, ◌*◌, ◌/◌, ◌≤◌, ◌^◌, length, vec_len, sum};
ghost use Rattle.std.specs.Int.{to_le_bytes, w32};
ghost use Rattle.vk_heap.specs.Region.{splice, piece, repeated};

use crate::plan::Work;
use std::alloc::{AllocError, Global};
use vk_heap::Region;
use vk_map_cache::HostCache;

/// The number of the memory object that the cache is in front of.
const MEMORY: u64 = 0;

/// Two regions, bytes of the host, and its cache in front of the second region.
#[derive(Drop)]
pub struct Buffers {
    from: Region,
    into: Region,
    host: Vec<u8>,
    cache: HostCache,
    word: u32,
    ghost some: { 8 ≤ length from },
    ghost bound: { length from ≤ 2 ^ 30 },
    ghost same: { length into ≡ length from },
    ghost host_len: { vec_len host ≡ length from },
}

impl Buffers {
    /// Regions of so many bytes, and as many of the host. The cache has room for as many, and holds
    /// none of them.
    pub fn new(alloc: Global, bytes: u64) -> Result<Buffers, AllocError>
        requires some { 8 ≤ bytes }
        requires bound { bytes ≤ 2 ^ 30 }
    {
        let from = Region::new(alloc, bytes)?;
        let into = Region::new(alloc, bytes)?;
        let mut host = Vec::new(alloc);
        host.resize(bytes as usize, 1)?;
        let mut cache = HostCache::new(alloc);
        cache.load(MEMORY, &into, 0)?;
        Ok(Buffers {
            from,
            into,
            host,
            cache,
            word: 0,
        })
    }

    /// The bytes of a region.
    pub fn size(&self) -> u64
        ensures { result ≡ length self.now.from }
    {
        self.from.size()
    }

    /// What comes before a turn: what it moves begins with this word.
    pub fn prepare(&mut self, work: Work, word: u32) -> Result<(), AllocError> {
        self.word = word;
        match work {
            Work::Copy | Work::Within | Work::Read => fill_words(&mut self.from, 1, word),
            Work::Fill => {}
            Work::Write | Work::CacheWrite => begin_with(self.host.as_mut_slice(), word),
            Work::CacheFlush => {
                begin_with(self.host.as_mut_slice(), word);
                self.cache
                    .write(MEMORY, &self.into, 0, self.host.as_slice())?;
            }
            Work::CacheRead => self
                .cache
                .write(MEMORY, &self.into, 0, &word.to_le_bytes())?,
        }
        Ok(())
    }

    /// A turn. The only error is want of memory.
    pub fn turn(&mut self, work: Work) -> Result<(), AllocError> {
        let size = self.size();
        match work {
            Work::Copy => self.copy(),
            Work::Within => self.copy_half(),
            Work::Fill => self.fill(),
            Work::Write => self.write(),
            Work::Read => self.read(),
            Work::CacheWrite => self
                .cache
                .write(MEMORY, &self.into, 0, self.host.as_slice())?,
            Work::CacheFlush => self.cache.flush(MEMORY, &mut self.into, 0, size),
            Work::CacheRead => self
                .cache
                .read(MEMORY, &self.into, 0, self.host.as_mut_slice()),
        }
        Ok(())
    }

    /// The sum of all bytes: of the host, and of the two regions.
    pub fn sum(&mut self) -> u64
        ensures { result ≡ sum self.old.host.items + sum self.old.from + sum self.old.into }
    {
        let mut all = sum_of(self.host.as_slice());
        self.from.read(0, self.host.as_mut_slice());
        all += sum_of(self.host.as_slice());
        self.into.read(0, self.host.as_mut_slice());
        all + sum_of(self.host.as_slice())
    }

    /// All bytes of a region are copied to the other one.
    fn copy(&mut self)
        ensures { self.new.into ≡ self.old.from }
    {
        let size = self.from.size();
        self.from.copy_between(0, &mut self.into, 0, size);
    }

    /// The first half of a region is copied behind itself.
    fn copy_half(&mut self)
        ensures { let half = length self.old.from / 2 in
            self.new.from ≡ splice self.old.from half (piece self.old.from 0 half) }
    {
        let half = self.from.size() / 2;
        self.from.copy_within(0, half, half);
    }

    /// Each word of a region is the one that was prepared.
    fn fill(&mut self)
        ensures { self.new.into ≡ splice self.old.into 0
            (repeated (length self.old.into / 4) (to_le_bytes w32 self.old.word)) }
    {
        let words = self.into.size() / 4;
        fill_words(&mut self.into, words, self.word);
    }

    /// The bytes of the host are written over a region.
    fn write(&mut self)
        ensures { self.new.into ≡ self.old.host.items }
    {
        self.into.write(0, self.host.as_slice());
    }

    /// The bytes of a region are read.
    fn read(&mut self)
        ensures { self.new.host.items ≡ self.old.from }
    {
        self.from.read(0, self.host.as_mut_slice());
    }
}

/// Fills words from the start of a region on, which keeps its size.
fn fill_words(region: &mut Region, words: u64, word: u32)
    requires { 4 * words ≤ length region.old }
    ensures filled { region.new ≡ splice region.old 0 (repeated words (to_le_bytes w32 word)) }
    ensures size { length region.new ≡ length region.old }
{
    region.fill(0, words, word);
}

/// Lets bytes begin with a word.
fn begin_with(bytes: &mut [u8], word: u32)
    requires { 4 ≤ length bytes.old }
{
    bytes[..4].copy_from_slice(&word.to_le_bytes());
}

/// The sum of bytes.
fn sum_of(bytes: &[u8]) -> u64
    requires { length bytes.now ≤ 2 ^ 30 }
    ensures exact { result ≡ sum bytes.now }
    ensures bound { result ≤ 255 * 2 ^ 30 }
{
    let mut all = 0;
    for byte in bytes {
        all += u64::from(*byte);
    }
    all
}

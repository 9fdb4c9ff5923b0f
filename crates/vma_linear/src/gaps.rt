ghost use Rattle.std.specs.Prelude.{◌≡◌, ◌+◌, ◌<◌, ◌^◌, IfSome};
ghost use Rattle.std.specs.Option.{option_map};
ghost use Rattle.vk_model.specs.Memory.Suballocation.{IsRequest, same_kind};
ghost use Rattle.vk_model.specs.Memory.TakenRanges.{taken_of};
ghost use Rattle.vma_linear.specs.Inner.Gaps as gaps;

use vk_model::{Kind, TakenRange};

/// The bytes of a page of `bufferImageGranularity` (profile).
const PAGE: u64 = 1_024;

/// Bytes that ranges may take.
#[derive(Clone, Copy)]
pub(crate) struct Gap {
    /// The first one.
    pub(crate) from: u64,
    /// The one after the last.
    pub(crate) to: u64,
}

impl Gap {
    /// The lowest start of so many bytes in the gap.
    pub(crate) fn lowest(self, bytes: u64, align: u64) -> Option<u64>
        requires request { IsRequest bytes align }
        requires within { self.from < 2 ^ 63 + 1024 }
        ensures { result ≡ gaps.lowest_in self.from self.to bytes align }
    {
        let start = (self.from + (align - 1)) / align * align;
        if start <= self.to && bytes <= self.to - start {
            Some(start)
        } else {
            None
        }
    }

    /// The highest start of so many bytes in the gap.
    pub(crate) fn highest(self, bytes: u64, align: u64) -> Option<u64>
        requires request { IsRequest bytes align }
        ensures { result ≡ gaps.highest_in self.from self.to bytes align }
    {
        if bytes > self.to {
            return None;
        }
        let start = (self.to - bytes) / align * align;
        if self.from <= start {
            Some(start)
        } else {
            None
        }
    }
}

/// The first byte that a resource of a kind may take after a range.
pub(crate) fn free_from(kind: Kind, last: Option<TakenRange>) -> u64
    requires { IfSome last (λ t. t.start + t.size < 2 ^ 63) }
    ensures { result ≡ gaps.free_from kind (option_map taken_of last) }
{
    match last {
        None => 0,
        Some(range) => {
            let end = range.start + range.size;
            if is_same_kind(range.kind, kind) {
                end
            } else {
                (end + (PAGE - 1)) / PAGE * PAGE
            }
        }
    }
}

/// The byte after the last one that a resource of a kind may take before a range; without one, at the
/// end of the block.
pub(crate) fn free_to(size: u64, kind: Kind, next: Option<TakenRange>) -> u64
    ensures { result ≡ gaps.free_to size kind (option_map taken_of next) }
{
    match next {
        None => size,
        Some(range) => {
            if is_same_kind(kind, range.kind) {
                range.start
            } else {
                range.start / PAGE * PAGE
            }
        }
    }
}

/// Whether the bytes of two resources lie in the same way.
fn is_same_kind(one: Kind, other: Kind) -> bool
    ensures { result ≡ same_kind one other }
{
    match (one, other) {
        (Kind::Linear, Kind::Linear) => true,
        (Kind::Optimal, Kind::Optimal) => true,
        _ => false,
    }
}

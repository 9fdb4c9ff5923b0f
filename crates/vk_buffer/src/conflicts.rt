ghost use Rattle.std.specs.Prelude.{◌≡◌, ◌+◌, ◌^◌, ◌<◌};
ghost use Rattle.vk_model.specs.Memory.Suballocation as ranges;

use vk_model::Kind;

/// The bytes of a page of `bufferImageGranularity` (profile).
const PAGE: u64 = 1_024;

/// Where a resource lies or would lie.
#[derive(Clone, Copy)]
pub(crate) struct Range {
    /// Its first byte.
    pub(crate) start: u64,
    /// In bytes.
    pub(crate) size: u64,
    /// How its bytes lie.
    pub(crate) kind: Kind,
}

/// Whether two resources can't lie there together.
pub(crate) fn conflict(one: Range, other: Range) -> bool
    requires { other.start + other.size < 2 ^ 64 }
    ensures { result
        ≡ ranges.conflict one.kind one.start one.size other.kind other.start other.size }
{
    ranges_meet(one, other) || (!is_same_kind(one.kind, other.kind) && share_page(one, other))
}

fn is_same_kind(one: Kind, other: Kind) -> bool
    ensures { result ≡ ranges.same_kind one other }
{
    match (one, other) {
        (Kind::Linear, Kind::Linear) => true,
        (Kind::Optimal, Kind::Optimal) => true,
        _ => false,
    }
}

/// Whether they have a byte in common. The first range may end past the last number of 64 bits.
fn ranges_meet(one: Range, other: Range) -> bool
    requires { other.start + other.size < 2 ^ 64 }
    ensures { result ≡ ranges.ranges_meet one.start one.size other.start other.size }
{
    one.size > 0
        && other.size > 0
        && one.start < other.start + other.size
        && other.start < one.start.saturating_add(one.size)
}

/// Whether they have bytes on one page. The first range may end past the last number of 64 bits.
fn share_page(one: Range, other: Range) -> bool
    requires { other.start + other.size < 2 ^ 64 }
    ensures { result ≡ ranges.share_page one.start one.size other.start other.size }
{
    one.size > 0
        && other.size > 0
        && one.start / PAGE <= (other.start + other.size - 1) / PAGE
        && other.start / PAGE <= one.start.saturating_add(one.size - 1) / PAGE
}

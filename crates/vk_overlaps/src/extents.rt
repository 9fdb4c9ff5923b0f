ghost use Rattle.std.specs.Prelude.{◌≡◌};
ghost use Rattle.vk_overlaps.specs.Extents as extents;

/// A range along an axis: what it begins at, and how many it has.
#[derive(Clone, Copy, Debug, PartialEq, Eq)]
pub struct Span {
    /// The first one.
    pub start: u64,
    /// How many there are. A span of none meets nothing.
    pub size: u64,
}

/// Where a part of resources lies: along each of five axes in a span. Along an axis that means nothing of
/// a part, as rows of a range of bytes, all parts have the same span of one.
#[derive(Clone, Copy, Debug, PartialEq, Eq)]
pub struct Extent {
    /// Ids of resources.
    pub resources: Span,
    /// Levels of an image.
    pub levels: Span,
    /// Layers of an image.
    pub layers: Span,
    /// Columns of texels, or bytes of a buffer.
    pub columns: Span,
    /// Rows of texels.
    pub rows: Span,
}

/// Whether two spans have something in common.
fn spans_meet(one: Span, other: Span) -> bool
    ensures { result ≡ extents.spans_meet one other }
{
    one.size > 0
        && other.size > 0
        && (one.start < other.start || one.start - other.start < other.size)
        && (other.start < one.start || other.start - one.start < one.size)
}

/// Whether two parts have something in common.
pub fn extents_meet(one: &Extent, other: &Extent) -> bool
    ensures { result ≡ extents.extents_meet one.now other.now }
{
    spans_meet(one.resources, other.resources)
        && spans_meet(one.levels, other.levels)
        && spans_meet(one.layers, other.layers)
        && spans_meet(one.columns, other.columns)
        && spans_meet(one.rows, other.rows)
}

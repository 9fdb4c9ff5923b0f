ghost use Rattle.std.specs.Prelude.{◌≡◌, IfOk, IfSome, is_some};
ghost use Rattle.vk_overlaps.specs.Extents.{parts_overlap, IsOverlapping};

use crate::extents::Extent;
use crate::pairs::overlapping_by_pairs;
use crate::planes::{Plane, Side, on_side, plane_among};
use std::alloc::{AllocError, Global};

/// So few parts that are written are compared with each.
const FEW: usize = 8;

/// So many planes, at most, are set one within a side of the other.
const DEEPEST: u32 = 64;

/// Whether a part that is written has something in common with another one that is written, or with one
/// that is read. The only error is want of memory.
pub fn overlap(alloc: Global, written: &[Extent], read: &[Extent]) -> Result<bool, AllocError>
    ensures { IfOk result (λ found. found ≡ parts_overlap written.now read.now) }
{
    Ok(overlapping(alloc, written, read)?.is_some())
}

/// One of the parts that are written that has something in common with another one that is written, or
/// with one that is read; it is left open which one. Of parts that don't overlap, it takes the time of
/// sorting them along each axis, a few times over, where planes divide them well, as they do along one
/// axis; at worst it compares each that is written with each. The only error is want of memory.
pub fn overlapping(
    alloc: Global,
    written: &[Extent],
    read: &[Extent],
) -> Result<Option<Extent>, AllocError>
    ensures found { IfOk result (λ found. is_some found ≡ parts_overlap written.now read.now) }
    ensures part { IfOk result (λ found. IfSome found (IsOverlapping written.now read.now)) }
{
    overlapping_within(alloc, written, read, DEEPEST)
}

/// The same, with so many planes at most one within a side of the other.
fn overlapping_within(
    alloc: Global,
    written: &[Extent],
    read: &[Extent],
    depth: u32,
) -> Result<Option<Extent>, AllocError>
    ensures found { IfOk result (λ found. is_some found ≡ parts_overlap written.now read.now) }
    ensures part { IfOk result (λ found. IfSome found (IsOverlapping written.now read.now)) }
{
    if written.len() <= FEW || depth == 0 {
        return Ok(overlapping_by_pairs(written, read));
    }
    let Some(plane) = plane_among(alloc, written)? else {
        return Ok(overlapping_by_pairs(written, read));
    };
    let before = {
        let written_before = on_side(alloc, written, plane, Side::Before)?;
        let read_before = on_side(alloc, read, plane, Side::Before)?;
        overlapping_within(
            alloc,
            written_before.as_slice(),
            read_before.as_slice(),
            depth - 1,
        )?
    };
    if before.is_some() {
        return Ok(before);
    }
    let written_after = on_side(alloc, written, plane, Side::After)?;
    let read_after = on_side(alloc, read, plane, Side::After)?;
    overlapping_within(
        alloc,
        written_after.as_slice(),
        read_after.as_slice(),
        depth - 1,
    )
}

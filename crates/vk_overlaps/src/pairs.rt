ghost use Rattle.std.specs.Prelude.{◌≡◌, [], IfSome, is_some};
ghost use Rattle.std.specs.List.{list_any};
ghost use Rattle.vk_model.specs.Basics.{some_pair};
ghost use Rattle.vk_overlaps.specs.Extents as extents;

use crate::extents::{Extent, extents_meet};

/// One of the written parts that overlaps, by comparing each that is written with each.
pub fn overlapping_by_pairs(written: &[Extent], read: &[Extent]) -> Option<Extent>
    ensures found { is_some result ≡ extents.parts_overlap written.now read.now }
    ensures part { IfSome result (extents.IsOverlapping written.now read.now) }
{
    match meeting(written) {
        Some(part) => Some(part),
        None => meeting_some(written, read),
    }
}

/// One of some parts that meets one of others.
fn meeting_some(written: &[Extent], read: &[Extent]) -> Option<Extent>
    ensures found { is_some result ≡ list_any (λ w. list_any (extents.extents_meet w) read.now) written.now }
    ensures part { IfSome result (extents.IsOverlapping written.now read.now) }
{
    let mut rest = written;
    while let [first, later @ ..] = rest {
        if meets_any(first, read) {
            return Some(*first);
        }
        rest = later;
    }
    None
}

/// One of some parts that meets a later one of them.
fn meeting(parts: &[Extent]) -> Option<Extent>
    ensures found { is_some result ≡ some_pair extents.extents_meet parts.now }
    ensures part { IfSome result (extents.IsOverlapping parts.now []) }
{
    let mut rest = parts;
    while let [first, later @ ..] = rest {
        if meets_any(first, later) {
            return Some(*first);
        }
        rest = later;
    }
    None
}

fn meets_any(part: &Extent, others: &[Extent]) -> bool
    ensures { result ≡ list_any (extents.extents_meet part.now) others.now }
{
    others.iter().any(|other| extents_meet(part, other))
}

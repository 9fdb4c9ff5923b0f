ghost use Rattle.std.specs.Prelude.{◌≡◌, IfOk, IfSome, is_some, map};
ghost use Rattle.vk_model.specs.Basics.{some_pair};
ghost use Rattle.vk_model.specs.World.Areas.{areas_meet};
ghost use Rattle.vk_model.specs.Rules.Ranges.{writes_overlap};
ghost use Rattle.vk_findings.specs.Inner.Areas.{area_of};
ghost use Rattle.vk_findings.specs.Inner.Found.{IsAmong, IsRising};

use crate::areas::Area;
use crate::commons::Common;
use crate::finder::{Pair, later_at, other_at, pair_between, pair_within};
use crate::hints::likely;
use std::alloc::{AllocError, Global};

/// A part of a point.
#[derive(Clone, Copy)]
pub enum Part {
    /// What a command writes: the number of a region or range, from 0.
    Written(usize),
    /// What it reads: the number of a region, from 0.
    Read(usize),
    /// A layout transition: the number of an element of a barrier, from 0.
    Transition(usize),
    /// An id: its number, from 0, in the two lists of an end of a pass, one after the other.
    Listed(usize),
}

/// Two parts of a point that overlap.
#[derive(Clone, Copy)]
pub struct Overlap {
    /// The one; of two of a kind the first.
    pub one: Part,
    /// The other.
    pub other: Part,
    /// What both have.
    pub common: Common,
}

/// Two areas that meet, of those that are written, or of those and the ones that are read. Planes say
/// which one to compare first; only where it meets none, each is compared with each.
pub fn overlap_among(
    alloc: Global,
    written: &[Area],
    read: &[Area],
) -> Result<Option<Overlap>, AllocError>
    ensures meet { IfOk result (λ found. is_some found ≡ writes_overlap (map area_of written.now) (map area_of read.now)) }
    ensures reported { IfOk result (λ found. IfSome found (IsAmong (map area_of written.now) (map area_of read.now))) }
{
    match overlap_hinted(alloc, written, read)? {
        Some(overlap) => Ok(Some(overlap)),
        None => Ok(by_pairs(written, read)),
    }
}

fn overlap_hinted(
    alloc: Global,
    written: &[Area],
    read: &[Area],
) -> Result<Option<Overlap>, AllocError>
    ensures { IfOk result (λ found. IfSome found (IsAmong (map area_of written.now) (map area_of read.now))) }
{
    match likely(alloc, written, read)? {
        Some(number) => Ok(overlap_at(number, written, read)),
        None => Ok(None),
    }
}

/// The first area that meets the written one of a number: a later one that is written, or one that is
/// read.
fn overlap_at(number: usize, written: &[Area], read: &[Area]) -> Option<Overlap>
    ensures { IfSome result (IsAmong (map area_of written.now) (map area_of read.now)) }
{
    if let Some(pair) = later_at(number, written) {
        return Some(two_written(pair));
    }
    let pair = other_at(number, written, read)?;
    Some(written_and_read(pair))
}

/// The same by comparing each with each.
fn by_pairs(written: &[Area], read: &[Area]) -> Option<Overlap>
    ensures meet { is_some result ≡ writes_overlap (map area_of written.now) (map area_of read.now) }
    ensures reported { IfSome result (IsAmong (map area_of written.now) (map area_of read.now)) }
{
    if let Some(pair) = pair_within(written) {
        return Some(two_written(pair));
    }
    let pair = pair_between(written, read)?;
    Some(written_and_read(pair))
}

/// Two of some areas that meet, found in the same way.
pub fn pair_among(alloc: Global, areas: &[Area]) -> Result<Option<Pair>, AllocError>
    ensures meet { IfOk result (λ found. is_some found ≡ some_pair areas_meet (map area_of areas.now)) }
    ensures reported { IfOk result (λ found. IfSome found (IsRising (map area_of areas.now))) }
{
    match pair_hinted(alloc, areas)? {
        Some(pair) => Ok(Some(pair)),
        None => Ok(pair_within(areas)),
    }
}

fn pair_hinted(alloc: Global, areas: &[Area]) -> Result<Option<Pair>, AllocError>
    ensures { IfOk result (λ found. IfSome found (IsRising (map area_of areas.now))) }
{
    match likely(alloc, areas, &[])? {
        Some(number) => Ok(later_at(number, areas)),
        None => Ok(None),
    }
}

fn two_written(pair: Pair) -> Overlap
    ensures { result ≡ record { one = Part.Written pair.one; other = Part.Written pair.other; common = pair.common } }
{
    Overlap {
        one: Part::Written(pair.one),
        other: Part::Written(pair.other),
        common: pair.common,
    }
}

fn written_and_read(pair: Pair) -> Overlap
    ensures { result ≡ record { one = Part.Written pair.one; other = Part.Read pair.other; common = pair.common } }
{
    Overlap {
        one: Part::Written(pair.one),
        other: Part::Read(pair.other),
        common: pair.common,
    }
}

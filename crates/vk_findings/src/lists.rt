ghost use Rattle.std.specs.Prelude.{◌≡◌, ℕ, IfOk, IfSome, is_some, map, nat_eq};
ghost use Rattle.vk_model.specs.Basics.{some_pair};
ghost use Rattle.vk_model.specs.Rules.Ranges as rules;
ghost use Rattle.vk_findings.specs.Commons.{IsIn, IsId};
ghost use Rattle.vk_findings.specs.Parts.{IsListedTwice};
ghost use Rattle.vk_findings.specs.Inner.Areas.{area_of, id_area};
ghost use Rattle.vk_findings.specs.Inner.Found.{IsOfIds};

use crate::areas::Area;
use crate::commons::Common;
use crate::finder::Pair;
use crate::pairs::{Overlap, Part, pair_among};
use std::alloc::{AllocError, Global};
use vk_model::Entry;

/// An id that an end of a pass lists twice.
pub fn listed_twice(alloc: Global, entry: &Entry) -> Result<Option<Overlap>, AllocError>
    ensures meet { IfOk result (λ found. is_some found ≡ rules.lists_twice entry.now) }
    ensures reported { IfOk result (λ found. IfSome found (IsListedTwice entry.now)) }
{
    match entry {
        Entry::EndPass {
            ignored,
            destroyed,
            ..
        } => {
            let mut ids = Vec::from_slice(alloc, ignored.as_slice())?;
            ids.extend_from_slice(destroyed.as_slice())?;
            ids_overlap(alloc, ids.as_slice())
        }
        _ => Ok(None),
    }
}

fn ids_overlap(alloc: Global, ids: &[u32]) -> Result<Option<Overlap>, AllocError>
    ensures meet { IfOk result (λ found. is_some found ≡ some_pair nat_eq ids.now) }
    ensures reported { IfOk result (λ found. IfSome found (IsOfIds ids.now)) }
{
    let areas = areas_of(alloc, ids)?;
    match pair_among(alloc, areas.as_slice())? {
        Some(pair) => Ok(Some(two_listed(pair))),
        None => Ok(None),
    }
}

fn two_listed(pair: Pair) -> Overlap
    ensures one { result.one ≡ Part.Listed pair.one }
    ensures other { result.other ≡ Part.Listed pair.other }
    ensures id { (id : ℕ) → IsIn (id_area id) pair.common → IsId id result.common }
{
    Overlap {
        one: Part::Listed(pair.one),
        other: Part::Listed(pair.other),
        common: Common::Id {
            id: id_in(pair.common),
        },
    }
}

/// The id that stands for the buffer of a byte.
fn id_in(common: Common) -> u32
    ensures { (id : ℕ) → IsIn (id_area id) common → result ≡ id }
{
    match common {
        Common::Byte { buffer, .. } => buffer,
        _ => 0,
    }
}

/// Each id as a byte that only it has.
fn areas_of(alloc: Global, ids: &[u32]) -> Result<Vec<Area>, AllocError>
    ensures { IfOk result (λ areas. map area_of areas.items ≡ map id_area ids.now) }
{
    let mut areas = Vec::with_capacity(alloc, ids.len())?;
    for id in ids {
        areas.push(Area::Bytes {
            buffer: *id,
            offset: 0,
            size: 1,
        })?;
    }
    Ok(areas)
}

ghost use Rattle.std.specs.Prelude.{◌≡◌, IfSome, IfNone, false, is_some, map, drop};
ghost use Rattle.std.specs.List.{list_any};
ghost use Rattle.vk_model.specs.Basics.{some_pair};
ghost use Rattle.vk_model.specs.World.Areas.{areas_meet};
ghost use Rattle.vk_findings.specs.Inner.Areas.{area_of};
ghost use Rattle.vk_findings.specs.Inner.Found.{IsMetFrom, IsPair, IsRising};

use crate::areas::{Area, common_of};
use crate::commons::Common;

/// An area that another one meets.
#[derive(Clone, Copy)]
pub struct Met {
    /// Its number, from 0.
    pub number: usize,
    /// What both have.
    pub common: Common,
}

/// Two areas that meet, each of a list of its own, which may be the same.
#[derive(Clone, Copy)]
pub struct Pair {
    /// The number of the one, from 0.
    pub one: usize,
    /// The number of the other, from 0.
    pub other: usize,
    /// What both have.
    pub common: Common,
}

/// The first of some areas, from a number on, that an area meets.
pub fn first_met(one: &Area, others: &[Area], from: usize) -> Option<Met>
    ensures none { IfNone result (list_any (areas_meet (area_of one.now)) (drop from (map area_of others.now)) ≡ false) }
    ensures some { IfSome result (IsMetFrom (area_of one.now) (map area_of others.now) from) }
{
    for number in from..others.len() {
        if let Some(common) = common_of(one, &others[number]) {
            return Some(Met { number, common });
        }
    }
    None
}

/// The area of a number, and the first later one that it meets.
pub fn later_at(number: usize, areas: &[Area]) -> Option<Pair>
    ensures { IfSome result (IsRising (map area_of areas.now)) }
{
    let area = areas.get(number)?;
    let met = first_met(area, areas, number + 1)?;
    Some(pair_of(number, met))
}

/// The area of a number, and the first of others that it meets.
pub fn other_at(number: usize, ones: &[Area], others: &[Area]) -> Option<Pair>
    ensures { IfSome result (IsPair (map area_of ones.now) (map area_of others.now)) }
{
    let area = ones.get(number)?;
    let met = first_met(area, others, 0)?;
    Some(pair_of(number, met))
}

/// The first of some areas that meets a later one.
pub fn pair_within(areas: &[Area]) -> Option<Pair>
    ensures meet { is_some result ≡ some_pair areas_meet (map area_of areas.now) }
    ensures reported { IfSome result (IsRising (map area_of areas.now)) }
{
    for number in 0..areas.len() {
        if let Some(met) = first_met(&areas[number], areas, number + 1) {
            return Some(pair_of(number, met));
        }
    }
    None
}

/// The first of some areas that meets one of others.
pub fn pair_between(ones: &[Area], others: &[Area]) -> Option<Pair>
    ensures meet { is_some result ≡ list_any (λ w. list_any (areas_meet w) (map area_of others.now)) (map area_of ones.now) }
    ensures reported { IfSome result (IsPair (map area_of ones.now) (map area_of others.now)) }
{
    for number in 0..ones.len() {
        if let Some(met) = first_met(&ones[number], others, 0) {
            return Some(pair_of(number, met));
        }
    }
    None
}

fn pair_of(one: usize, met: Met) -> Pair
    ensures { result ≡ record { one = one; other = met.number; common = met.common } }
{
    Pair {
        one,
        other: met.number,
        common: met.common,
    }
}

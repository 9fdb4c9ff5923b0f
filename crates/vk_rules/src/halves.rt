ghost use Rattle.std.specs.Prelude.{◌≡◌, ◌==◌, ◌∷◌, ◌&&◌, ◌||◌, ℕ, List, Bool, not, nat_lt, true, false, IfOk, IfSome, OnOk, Some, None, is_some, if◌then◌else◌};
ghost use Rattle.std.specs.List.{list_any};
ghost use Rattle.std.specs.Ordering.{nat_cmp};
ghost use Rattle.std.specs.BTreeMap.{get};
ghost use Rattle.vk_model.specs.declared.command.Element.{Element as AnyElement};
ghost use Rattle.vk_model.specs.declared.command.Families.{Families as AnyFamilies};
ghost use Rattle.vk_model.specs.Trace.Objects.{is_exclusive};
ghost use Rattle.vk_model.specs.World.Bytes.{Owner};
ghost use Rattle.vk_model.specs.World.Effect.{world};
ghost use Rattle.vk_model.specs.World.Ownership as ownership;
ghost use Rattle.vk_model.specs.World.Ownership.{named_by, families_of, transfer_on};
ghost use Rattle.vk_model.specs.Rules.Owners as owners;
ghost use Rattle.vk_model.specs.Sync.Node.{Node};
ghost use Rattle.vk_model.specs.Trace.PointViews.{point_of};
ghost use Rattle.vk_history.specs.Owners.{is_transition_of};
ghost use Rattle.vk_history.specs.PointViews.{past};
ghost use Rattle.vk_rules.specs.Owners.{IsFault};
ghost use Rattle.vk_rules.specs.Inner.Owners.{Judges, ComesAfter, IsFaultNow, IsUnpairedAt, is_released_now};

use crate::owners::{OwnerFault, Unpaired};
use std::alloc::{AllocError, Global};
use std::collections::BTreeMap;
use vk_history::{History, Owned, family_of, is_transition};
use vk_layouts::{Transfer, is_pair};
use vk_model::{Element, Families, Point};

/// Of which resources the elements of a barrier have changed the owner, and whether each is released
/// now.
#[derive(Drop)]
pub struct Changed {
    released: BTreeMap<u32, bool>,
}

impl Changed {
    /// Before the first element.
    pub fn new(alloc: Global) -> Changed
        ensures { (r : ℕ) → get nat_cmp result.released r ≡ None }
    {
        Changed {
            released: BTreeMap::new(alloc),
        }
    }

    fn of(&self, resource: u32) -> Option<bool>
        ensures { result ≡ get nat_cmp self.now.released resource }
    {
        self.released.get(&resource).copied()
    }

    fn set(&mut self, resource: u32, is_released: bool) -> Result<(), AllocError>
        ensures { OnOk result ((other : ℕ) → get nat_cmp self.new.released other ≡ (if other == resource then Some is_released else get nat_cmp self.old.released other)) }
    {
        self.released.insert(resource, is_released)?;
        Ok(())
    }
}

/// What is reported of an element of a barrier that breaks OWNER_PAIR, after those before it.
pub fn unpaired_at(
    history: &History<'_>,
    point: &Point<'_>,
    index: usize,
    element: &Element,
    changed: &mut Changed,
) -> Result<Option<Unpaired>, AllocError>
    ensures judges { IfOk result (λ found. Judges (λ all w n. owners.bad_pair (past history.now) all w n element.now) (past history.now) (point_of point.now) element.now changed.old changed.new (is_some found)) }
    ensures reported { IfOk result (λ found. IfSome found (IsUnpairedAt (past history.now) (point_of point.now) index element.now changed.old)) }
{
    match element {
        Element::Memory(_) => Ok(None),
        Element::Buffer(on_buffer) => {
            let families = on_buffer.families;
            let buffer = on_buffer.buffer;
            unpaired_of(history, point, index, element, buffer, families, changed)
        }
        Element::Image(on_image) => {
            let families = on_image.families;
            let image = on_image.image;
            unpaired_of(history, point, index, element, image, families, changed)
        }
    }
}

/// The same of an element that names a resource and families.
fn unpaired_of(
    history: &History<'_>,
    point: &Point<'_>,
    index: usize,
    element: &Element,
    resource: u32,
    families: Families,
    changed: &mut Changed,
) -> Result<Option<Unpaired>, AllocError>
    requires named { named_by element.now ≡ Some resource }
    requires families { families_of element.now ≡ Some families }
    ensures judges { IfOk result (λ found. Judges (λ all w n. owners.bad_pair (past history.now) all w n element.now) (past history.now) (point_of point.now) element.now changed.old changed.new (is_some found)) }
    ensures reported { IfOk result (λ found. IfSome found (IsUnpairedAt (past history.now) (point_of point.now) index element.now changed.old)) }
{
    match fault_of(history, point, element, resource, families, changed)? {
        Some(fault) => Ok(Some(Unpaired {
            element: index,
            resource,
            families,
            fault,
        })),
        None => Ok(None),
    }
}

/// What doesn't fit of an element that names a resource and families, after those before it.
fn fault_of(
    history: &History<'_>,
    point: &Point<'_>,
    element: &Element,
    resource: u32,
    families: Families,
    changed: &mut Changed,
) -> Result<Option<OwnerFault>, AllocError>
    requires named { named_by element.now ≡ Some resource }
    requires families { families_of element.now ≡ Some families }
    ensures judges { IfOk result (λ found. Judges (λ all w n. owners.bad_pair (past history.now) all w n element.now) (past history.now) (point_of point.now) element.now changed.old changed.new (is_some found)) }
    ensures differ { IfOk result (λ found. IfSome found (λ f. owners.families_differ families ≡ true)) }
    ensures fault { IfOk result (λ found. IfSome found (IsFaultNow (past history.now) (point_of point.now) element.now resource families changed.old)) }
{
    match family_fault(history, families, resource) {
        Some(fault) => Ok(Some(fault)),
        None => half_fault(history, point, element, resource, families, changed),
    }
}

/// The same where the families and the resource are such that it may be half of a transfer.
fn half_fault(
    history: &History<'_>,
    point: &Point<'_>,
    element: &Element,
    resource: u32,
    families: Families,
    changed: &mut Changed,
) -> Result<Option<OwnerFault>, AllocError>
    requires named { named_by element.now ≡ Some resource }
    requires families { families_of element.now ≡ Some families }
    requires fit { (owners.families_differ families && (nat_lt 1 families.source || nat_lt 1 families.destination || not (is_exclusive (past history.now) resource))) ≡ false }
    ensures judges { IfOk result (λ found. Judges (λ all w n. owners.bad_pair (past history.now) all w n element.now) (past history.now) (point_of point.now) element.now changed.old changed.new (is_some found)) }
    ensures differ { IfOk result (λ found. IfSome found (λ f. owners.families_differ families ≡ true)) }
    ensures fault { IfOk result (λ found. IfSome found (IsFaultNow (past history.now) (point_of point.now) element.now resource families changed.old)) }
{
    match Transfer::of(family_of(point.queue), families) {
        Transfer::Stays => stay(history, point, element, resource, changed),
        Transfer::Neither => Ok(Some(OwnerFault::OtherQueue)),
        Transfer::Release => release(history, point, element, resource, changed),
        Transfer::Acquire => acquire(history, point, element, resource, changed),
    }
}

/// An element whose families are equal: a transition is a use.
fn stay(
    history: &History<'_>,
    point: &Point<'_>,
    element: &Element,
    resource: u32,
    changed: &mut Changed,
) -> Result<Option<OwnerFault>, AllocError>
    requires named { named_by element.now ≡ Some resource }
    requires does { transfer_on point.now.queue element.now ≡ ownership.Stays }
    ensures judges { IfOk result (λ found. Judges (λ all w n. false) (past history.now) (point_of point.now) element.now changed.old changed.new (is_some found)) }
    ensures fits { IfOk result (λ found. found ≡ None) }
{
    if is_transition_of(element) && history.is_exclusive(resource) {
        changed.set(resource, false)?;
    }
    Ok(None)
}

/// The first half of a transfer.
fn release(
    history: &History<'_>,
    point: &Point<'_>,
    element: &Element,
    resource: u32,
    changed: &mut Changed,
) -> Result<Option<OwnerFault>, AllocError>
    requires named { named_by element.now ≡ Some resource }
    requires does { transfer_on point.now.queue element.now ≡ ownership.Release }
    ensures judges { IfOk result (λ found. Judges (λ all w n. owners.is_released (w.owner resource)) (past history.now) (point_of point.now) element.now changed.old changed.new (is_some found)) }
    ensures fault { (t : AnyFamilies) → IfOk result (λ found. IfSome found (IsFaultNow (past history.now) (point_of point.now) element.now resource t changed.old)) }
{
    if is_released(history, resource, changed) {
        return Ok(Some(OwnerFault::ReleasedTwice));
    }
    changed.set(resource, true)?;
    Ok(None)
}

/// The second half of a transfer.
fn acquire(
    history: &History<'_>,
    point: &Point<'_>,
    element: &Element,
    resource: u32,
    changed: &mut Changed,
) -> Result<Option<OwnerFault>, AllocError>
    requires named { named_by element.now ≡ Some resource }
    requires does { transfer_on point.now.queue element.now ≡ ownership.Acquire }
    ensures judges { IfOk result (λ found. Judges (λ all w n. not (owners.is_released_for element.now (w.owner resource) && owners.release_before all resource n)) (past history.now) (point_of point.now) element.now changed.old changed.new (is_some found)) }
    ensures fault { (t : AnyFamilies) → IfOk result (λ found. IfSome found (IsFaultNow (past history.now) (point_of point.now) element.now resource t changed.old)) }
{
    match changed.of(resource) {
        // An element on the same queue releases for another family.
        Some(true) => Ok(Some(OwnerFault::OtherHalf)),
        Some(false) => Ok(Some(OwnerFault::Unreleased)),
        None => acquire_first(history, point, element, resource, changed),
    }
}

/// The same where no element before it has changed the owner.
fn acquire_first(
    history: &History<'_>,
    point: &Point<'_>,
    element: &Element,
    resource: u32,
    changed: &mut Changed,
) -> Result<Option<OwnerFault>, AllocError>
    requires named { named_by element.now ≡ Some resource }
    requires does { transfer_on point.now.queue element.now ≡ ownership.Acquire }
    requires unchanged { get nat_cmp changed.old.released resource ≡ None }
    ensures judges { IfOk result (λ found. Judges (λ all w n. not (owners.is_released_for element.now (w.owner resource) && owners.release_before all resource n)) (past history.now) (point_of point.now) element.now changed.old changed.new (is_some found)) }
    ensures fault { (t : AnyFamilies) → IfOk result (λ found. IfSome found (IsFaultNow (past history.now) (point_of point.now) element.now resource t changed.old)) }
{
    let fault = second_half_fault(history, point, element, resource)?;
    if fault.is_none() {
        changed.set(resource, false)?;
    }
    Ok(fault)
}

/// Why an element isn't the other half of the last release of its resource, or that doesn't come before
/// it, where no element of its barrier has changed the owner.
fn second_half_fault(
    history: &History<'_>,
    point: &Point<'_>,
    element: &Element,
    resource: u32,
) -> Result<Option<OwnerFault>, AllocError>
    ensures second { IfOk result (λ found. (done : List AnyElement) (all : List Node) (n : Node) → ComesAfter (past history.now) (point_of point.now) done all n element.now → list_any (owners.releases_resource resource point.now.queue) done ≡ false
        → is_some found ≡ not (owners.is_released_for element.now ((world (past history.now)).owner resource) && owners.release_before all resource n)) }
    ensures fault { transfer_on point.now.queue element.now ≡ ownership.Acquire → (t : AnyFamilies) (exclusive : Bool) → IfOk result (λ found. IfSome found (IsFault point.now.queue element.now t exclusive ((world (past history.now)).owner resource))) }
{
    match history.owner(resource) {
        Some(Owned::Released(release)) => {
            if !is_pair(release.element, element) {
                return Ok(Some(OwnerFault::OtherHalf));
            }
            let is_before = history.is_before(release.spot, point, element)?;
            Ok(unordered(is_before))
        }
        _ => Ok(Some(OwnerFault::Unreleased)),
    }
}

/// The fault of an acquire whose other half may not come before it.
fn unordered(is_before: bool) -> Option<OwnerFault>
    ensures broken { is_some result ≡ not is_before }
    ensures fault { IfSome result (λ f. f ≡ OwnerFault.Unordered) }
{
    if is_before {
        None
    } else {
        Some(OwnerFault::Unordered)
    }
}

/// Whether a resource is released now.
fn is_released(history: &History<'_>, resource: u32, changed: &Changed) -> bool
    ensures { result ≡ is_released_now (past history.now) resource (get nat_cmp changed.now.released resource) }
{
    match changed.of(resource) {
        Some(is_released) => is_released,
        None => was_released(history, resource),
    }
}

/// Whether it was before the barrier.
fn was_released(history: &History<'_>, resource: u32) -> bool
    ensures { result ≡ owners.is_released ((world (past history.now)).owner resource) }
{
    match history.owner(resource) {
        Some(Owned::Released(_)) => true,
        Some(Owned::Family(_)) => false,
        None => false,
    }
}

/// Whether an element is a layout transition.
fn is_transition_of(element: &Element) -> bool
    ensures { result ≡ is_transition_of element.now }
{
    match element {
        Element::Image(on_image) => is_transition(on_image),
        _ => false,
    }
}

/// What doesn't fit of families that differ: one isn't 0 or 1, or the resource is concurrent.
fn family_fault(history: &History<'_>, families: Families, resource: u32) -> Option<OwnerFault>
    ensures broken { is_some result ≡ (owners.families_differ families
        && (nat_lt 1 families.source || nat_lt 1 families.destination
        || not (is_exclusive (past history.now) resource))) }
    ensures differ { IfSome result (λ f. owners.families_differ families ≡ true) }
    ensures fault { (q : ℕ) (e : AnyElement) (o : Owner) → IfSome result (IsFault q e families (is_exclusive (past history.now) resource) o) }
{
    if families.source == families.destination {
        None
    } else if families.source > 1 || families.destination > 1 {
        Some(OwnerFault::UnknownFamily)
    } else if !history.is_exclusive(resource) {
        Some(OwnerFault::Concurrent)
    } else {
        None
    }
}

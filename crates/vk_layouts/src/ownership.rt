ghost use Rattle.std.specs.Prelude.{◌≡◌, ℕ, true, Some, not, is_ok, IfOk, IfErr, OnOk, OnErr};
ghost use Rattle.vk_model.specs.Trace.Objects.{is_exclusive};
ghost use Rattle.vk_model.specs.Trace.Point.{Past};
ghost use Rattle.vk_model.specs.World.Bytes.{World, Family, Released};
ghost use Rattle.vk_model.specs.World.Effect.{used, is_other, after_element};
ghost use Rattle.vk_model.specs.World.Ownership as ownership;
ghost use Rattle.vk_model.specs.Rules.Owners.{is_pair, is_released, is_released_for, same_families};
ghost use Rattle.vk_layouts.specs.Owned.{owner_of, release_of, transfer_of, IsHalf, contents_after};

use vk_model::{Element, Families, Rule};

/// Who owns a resource whose sharing mode is exclusive (Vulkan, "Resource Sharing Mode").
#[derive(Clone, Copy, Debug, PartialEq, Eq)]
pub enum Owner {
    /// Nobody yet.
    Nobody,
    /// The queue family that used or acquired it last.
    Family(u32),
    /// A family has released it, and it was neither acquired nor used since.
    Released(Release),
}

/// The first half of an ownership transfer (Vulkan, "Queue Family Ownership Transfer").
#[derive(Clone, Copy, Debug, PartialEq, Eq)]
pub struct Release {
    /// The queue family that released the resource.
    pub family: u32,
    /// The element of the barrier.
    pub element: Element,
    /// The node of the element, by the caller's numbers.
    pub node: usize,
}

/// What an element does with ownership on a queue (Vulkan, "Queue Family Ownership Transfer").
#[derive(Clone, Copy, Debug, PartialEq, Eq)]
pub enum Transfer {
    /// Nothing, as its families are equal.
    Stays,
    /// The first half of a transfer.
    Release,
    /// The second half.
    Acquire,
    /// Neither half, as the queue is of no family that the element names.
    Neither,
}

impl Owner {
    /// A use by a queue of a family, which owns the resource from then on. Answers whether the
    /// contents become undefined, as another family owned the resource or had released it.
    pub fn use_on(&mut self, family: u32) -> bool
        ensures lost { result ≡ is_other family (owner_of self.old) }
        ensures owner { owner_of self.new ≡ Family family }
        ensures world { (past : Past) (w : World) (resource : ℕ)
            → is_exclusive past resource ≡ true → w.owner resource ≡ owner_of self.old
            → (used past family resource w).value ≡ contents_after result resource w }
    {
        let is_lost = self.is_other(family);
        *self = Owner::Family(family);
        is_lost
    }

    /// Whether another family than this one owns the resource or has released it.
    fn is_other(&self, family: u32) -> bool
        ensures { result ≡ is_other family (owner_of self.now) }
    {
        match self {
            Owner::Nobody => false,
            Owner::Family(owner) => family != *owner,
            Owner::Released(release) => family != release.family,
        }
    }

    /// Whether the resource is released, and was neither acquired nor used since.
    pub fn is_released(&self) -> bool
        ensures { result ≡ is_released (owner_of self.now) }
    {
        matches!(self, Owner::Released(_))
    }

    /// The node of the release that an element is the other half of, if the resource is released
    /// by it.
    pub fn release_for(&self, element: &Element) -> Option<usize>
        ensures { result ≡ release_of element.now self.now }
    {
        match self {
            Owner::Released(release) if is_pair(&release.element, element) => Some(release.node),
            _ => None,
        }
    }

    /// The first half of a transfer, by an element on a queue of a family, at a node: a use, after
    /// which the resource is released. Answers whether the contents become undefined.
    ///
    /// # Errors
    /// OWNER_PAIR where the resource is released already. Nothing is changed then.
    pub fn release(&mut self, family: u32, element: &Element, node: usize) -> Result<bool, Rule>
        ensures refused { is_ok result ≡ not (is_released (owner_of self.old)) }
        ensures rule { IfErr result (λ rule. rule ≡ Rule.OwnerPair) }
        ensures err { OnErr result (self.new ≡ self.old) }
        ensures lost { IfOk result (λ lost. lost ≡ is_other family (owner_of self.old)) }
        ensures owner { OnOk result (owner_of self.new ≡ Released family element.now) }
        ensures node { OnOk result ((other : Element) → is_pair element.now other ≡ true
            → release_of other self.new ≡ Some node) }
        ensures world { OnOk result ((past : Past) (w : World) (resource : ℕ)
            → IsHalf family resource ownership.Release element.now
            → (after_element past family w element.now).owner resource ≡ owner_of self.new) }
    {
        if self.is_released() {
            return Err(Rule::OwnerPair);
        }
        let is_lost = self.is_other(family);
        *self = Owner::Released(Release {
            family,
            element: *element,
            node,
        });
        Ok(is_lost)
    }

    /// The second half of a transfer, by an element on a queue of a family, which owns the resource
    /// from then on; nothing is lost. Answers the node of the release.
    ///
    /// # Errors
    /// OWNER_PAIR where the resource isn't released by the element's other half. Nothing is changed
    /// then. That the release has to come before is left to the caller.
    pub fn acquire(&mut self, family: u32, element: &Element) -> Result<usize, Rule>
        ensures refused { is_ok result ≡ is_released_for element.now (owner_of self.old) }
        ensures rule { IfErr result (λ rule. rule ≡ Rule.OwnerPair) }
        ensures err { OnErr result (self.new ≡ self.old) }
        ensures node { IfOk result (λ node. release_of element.now self.old ≡ Some node) }
        ensures owner { OnOk result (owner_of self.new ≡ Family family) }
        ensures world { OnOk result ((past : Past) (w : World) (resource : ℕ)
            → IsHalf family resource ownership.Acquire element.now
            → (after_element past family w element.now).owner resource ≡ owner_of self.new) }
    {
        match self.release_for(element) {
            Some(node) => {
                *self = Owner::Family(family);
                Ok(node)
            }
            None => Err(Rule::OwnerPair),
        }
    }
}

impl Transfer {
    /// What an element with these families does on a queue of a family.
    pub fn of(family: u32, families: Families) -> Transfer
        ensures { transfer_of result ≡ ownership.transfer family families }
    {
        if families.source == families.destination {
            Transfer::Stays
        } else if families.source == family {
            Transfer::Release
        } else if families.destination == family {
            Transfer::Acquire
        } else {
            Transfer::Neither
        }
    }
}

/// Whether two elements are the two halves of one transfer: the same families, the same resource
/// and, as written, the same layouts.
pub fn is_pair(release: &Element, acquire: &Element) -> bool
    ensures { result ≡ is_pair release.now acquire.now }
{
    match (release, acquire) {
        (Element::Buffer(one), Element::Buffer(other)) => {
            are_same(one.families, other.families) && one.buffer == other.buffer
        }
        (Element::Image(one), Element::Image(other)) => {
            are_same(one.families, other.families)
                && one.image == other.image
                && one.old_layout == other.old_layout
                && one.new_layout == other.new_layout
        }
        _ => false,
    }
}

fn are_same(one: Families, other: Families) -> bool
    ensures { result ≡ same_families one other }
{
    one.source == other.source && one.destination == other.destination
}

ghost use Rattle.std.specs.Prelude.{◌≡◌, ◌&&◌, not, OnOk};
ghost use Rattle.vk_model.specs.World.Ownership as ownership;
ghost use Rattle.vk_layouts.specs.Owned.{transfer_of};
ghost use Rattle.vk_history.specs.Inner.Passing.{IsPassed, IsReleased, IsHandedOver, IsImagePassed, IsUsedByTransition};

use crate::elements::is_transition;
use crate::families::family_of;
use crate::resource_contents::ResourceContents;
use std::alloc::AllocError;
use vk_layouts::Transfer;
use vk_model::ImageElement;
use vk_touches::Spot;

impl ResourceContents {
    /// After an element of a barrier on a buffer, on a queue of a family: a release is a use, and an
    /// acquire loses nothing.
    pub(crate) fn pass(&mut self, family: u32, transfer: Transfer) -> Result<(), AllocError>
        ensures { OnOk result (IsPassed family (transfer_of transfer) self.old self.new) }
    {
        match transfer {
            Transfer::Release => {
                self.release(family)?;
                Ok(())
            }
            Transfer::Acquire => {
                self.owner = Some(family);
                Ok(())
            }
            Transfer::Stays | Transfer::Neither => Ok(()),
        }
    }

    /// After one on an image, on a queue, whose node is at a spot: a layout transition reads and
    /// writes what it covers.
    pub(crate) fn pass_image(
        &mut self,
        queue: u32,
        element: &ImageElement,
        spot: Spot,
    ) -> Result<(), AllocError>
        ensures { OnOk result (IsImagePassed queue element.now spot self.old self.new) }
    {
        let family = family_of(queue);
        let transfer = Transfer::of(family, element.families);
        self.hand_over(family, transfer, element)?;
        self.mark(moves(transfer, element), &element.range, spot)?;
        Ok(())
    }

    /// A release is a use and an acquire loses nothing, but what a transition discards; that within
    /// one family is a use, and that of a transfer takes place at the acquire alone.
    fn hand_over(
        &mut self,
        family: u32,
        transfer: Transfer,
        element: &ImageElement,
    ) -> Result<(), AllocError>
        ensures { OnOk result (IsHandedOver family (transfer_of transfer) element.now self.old self.new) }
    {
        match transfer {
            Transfer::Stays => {
                self.use_by_transition(family, element)?;
                Ok(())
            }
            Transfer::Release => {
                self.release(family)?;
                Ok(())
            }
            Transfer::Acquire => {
                self.transition(element)?;
                self.owner = Some(family);
                Ok(())
            }
            Transfer::Neither => Ok(()),
        }
    }

    /// After a transition within one family, if the element is one.
    fn use_by_transition(&mut self, family: u32, element: &ImageElement) -> Result<(), AllocError>
        ensures { OnOk result (IsUsedByTransition family element.now self.old self.new) }
    {
        if is_transition(element) {
            self.take_over(family)?;
            self.transition(element)?;
            Ok(())
        } else {
            Ok(())
        }
    }

    /// After a release by a family.
    fn release(&mut self, family: u32) -> Result<(), AllocError>
        ensures { OnOk result (IsReleased family self.old self.new) }
    {
        self.take_over(family)?;
        self.owner = Some(family);
        Ok(())
    }
}

/// Whether an element reads and writes what it covers: where it is a layout transition and no
/// release.
fn moves(transfer: Transfer, element: &ImageElement) -> bool
    ensures { result ≡ (ownership.is_transition element.now && not (ownership.releases (transfer_of transfer))) }
{
    is_transition(element) && !matches!(transfer, Transfer::Release)
}

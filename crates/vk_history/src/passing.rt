ghost use Rattle.std.specs.Prelude.{◌≢◌, ◌≡◌, ℕ, OnOk, IsTrue};
ghost use Rattle.std.specs.List.{fold};
ghost use Rattle.vk_ids.specs.Ids.{value_of};
ghost use Rattle.vk_model.specs.Trace.Point.{Past, Point as AnyPoint};
ghost use Rattle.vk_model.specs.Sync.Node.{nodes};
ghost use Rattle.vk_model.specs.World.Bytes.{Byte, World};
ghost use Rattle.vk_model.specs.World.Effect.{after_element};
ghost use Rattle.vk_model.specs.World.Ownership.{family_of};
ghost use Rattle.vk_layouts.specs.Owned.{transfer_of};
ghost use Rattle.vk_order.specs.Frontiers.{IsFrontier};
ghost use Rattle.vk_touches.specs.declared.touches.LastTouches.{LastTouches};
ghost use Rattle.vk_history.specs.Contents.{AreAllAt, BecomesIn};
ghost use Rattle.vk_history.specs.Inner.Passing.{AreOnResources, IsPassed, IsImagePassed, is_on_resource, touched_by, touched_by_all};

use crate::contents::Contents;
use crate::element_spots::ElementSpots;
use crate::elements::is_memory_alone;
use crate::families::family_of;
use std::alloc::AllocError;
use vk_layouts::Transfer;
use vk_model::{Element, ImageElement};
use vk_order::Frontier;
use vk_touches::Spot;

impl Contents {
    /// What the elements of a barrier do on a queue, one after another.
    pub(crate) fn pass_all(
        &mut self,
        queue: u32,
        elements: &[Element],
        frontier: &Frontier,
    ) -> Result<(), AllocError>
        ensures { OnOk result ((past : Past) (w : World) (t : Byte → LastTouches) (p : AnyPoint) → p.queue ≡ queue → IsFrontier frontier.now (nodes past) → AreOnResources past elements.now → AreAllAt self.old past w t
            → AreAllAt self.new past (fold (after_element past (family_of queue)) w elements.now) (touched_by_all past p (nodes past) elements.now t)) }
    {
        if is_memory_alone(elements) {
            return Ok(());
        }
        let mut spots = ElementSpots::of(frontier, queue);
        for element in elements {
            let Some(spot) = spots.take(element) else {
                return Err(AllocError);
            };
            self.pass(queue, element, spot)?;
        }
        Ok(())
    }

    fn pass(&mut self, queue: u32, element: &Element, spot: Spot) -> Result<(), AllocError>
        ensures { OnOk result ((past : Past) (w : World) (t : Byte → LastTouches) → IsTrue (is_on_resource past element.now) → AreAllAt self.old past w t
            → AreAllAt self.new past (after_element past (family_of queue) w element.now) (touched_by past queue element.now spot t)) }
    {
        match element {
            Element::Buffer(range) => {
                let family = family_of(queue);
                let transfer = Transfer::of(family, range.families);
                self.pass_buffer(range.buffer, family, transfer)
            }
            Element::Image(on_image) => self.pass_image(queue, on_image, spot),
            Element::Memory(_) => Ok(()),
        }
    }

    fn pass_buffer(
        &mut self,
        buffer: u32,
        family: u32,
        transfer: Transfer,
    ) -> Result<(), AllocError>
        ensures here { OnOk result (BecomesIn (IsPassed family (transfer_of transfer)) (value_of self.old.resources buffer) (value_of self.new.resources buffer)) }
        ensures others { OnOk result ((other : ℕ) → other ≢ buffer → value_of self.new.resources other ≡ value_of self.old.resources other) }
    {
        match self.resources.get_mut(buffer) {
            Some(contents) => contents.pass(family, transfer),
            None => Ok(()),
        }
    }

    fn pass_image(
        &mut self,
        queue: u32,
        element: &ImageElement,
        spot: Spot,
    ) -> Result<(), AllocError>
        ensures here { OnOk result (BecomesIn (IsImagePassed queue element.now spot) (value_of self.old.resources element.now.image) (value_of self.new.resources element.now.image)) }
        ensures others { OnOk result ((other : ℕ) → other ≢ element.now.image → value_of self.new.resources other ≡ value_of self.old.resources other) }
    {
        match self.resources.get_mut(element.image) {
            Some(contents) => contents.pass_image(queue, element, spot),
            None => Ok(()),
        }
    }
}

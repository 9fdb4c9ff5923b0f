ghost use Rattle.std.specs.Prelude.{◌≡◌, ◌∷◌, ◌==◌, ◌++◌, ◌&&◌, [], ℕ, List, OnOk, Some, if◌then◌else◌, map, option_map};
ghost use Rattle.std.specs.List.{fold};
ghost use Rattle.vk_model.specs.Basics.{among, option_list};
ghost use Rattle.vk_model.specs.Trace.Objects.{is_exclusive};
ghost use Rattle.vk_model.specs.Trace.Point.{Past, Point as AnyPoint};
ghost use Rattle.vk_model.specs.World.Bytes.{World};
ghost use Rattle.vk_model.specs.World.Effect as effect;
ghost use Rattle.vk_model.specs.World.Ownership.{family_of};
ghost use Rattle.vk_model.specs.Sync.Node.{Node, Depends, Barrier, with_acts, command_acts};
ghost use Rattle.vk_model.specs.Sync.Before.{IsNumbered};
ghost use Rattle.vk_model.specs.Trace.PointViews.{point_of};
ghost use Rattle.vk_order.specs.Frontiers.{IsFrontier};
ghost use Rattle.vk_history.specs.Owners as owners;
ghost use Rattle.vk_history.specs.Owners.{AreOwners, AreOwned, owned_by, kept_at, is_taken};
ghost use Rattle.vk_history.specs.Tabled.{AreObjects};
ghost use Rattle.vk_history.specs.Uses.{AreElementCounts};
ghost use Rattle.vk_model.specs.Sync.Node.{nodes};

use crate::elements::{is_memory_alone, is_transition};
use crate::families::family_of;
use crate::last_uses::ElementCounts;
use crate::objects::Objects;
use crate::used::{Used, used_by};
use std::alloc::{AllocError, Global};
use vk_ids::IdMap;
use vk_layouts::Transfer;
use vk_model::{Action, Cmd, Element, Point};
use vk_order::{Act, Frontier, Line, Spot};

/// Who owns a resource.
#[derive(Clone, Copy)]
pub enum Owned<'a> {
    /// The queue family that used or acquired it last.
    Family(u32),
    /// A family has released it, and it was neither acquired nor used since.
    Released(Release<'a>),
}

/// The first half of an ownership transfer.
#[derive(Clone, Copy)]
pub struct Release<'a> {
    /// The queue family that released the resource.
    pub family: u32,
    /// The element of the barrier.
    pub element: &'a Element,
    /// The node of the element.
    pub spot: Spot,
}

/// Who owns each resource that was used, released or acquired.
#[derive(Drop)]
pub struct Owners<'a> {
    owned: IdMap<Owned<'a>>,
}

impl<'a> Owners<'a> {
    /// Before the first point.
    pub fn new(alloc: Global) -> Owners<'a>
        ensures { AreOwners result [] }
    {
        Owners {
            owned: IdMap::new(alloc),
        }
    }

    /// What is kept of a resource.
    pub fn of(&self, resource: u32) -> Option<Owned<'a>>
        ensures { option_map owners.kept_of result ≡ kept_at self.now resource }
    {
        self.owned.get(resource).copied()
    }

    /// Takes the next point, by the objects so far and by how many nodes there are on each line.
    pub fn note(
        &mut self,
        point: &Point<'a>,
        objects: &Objects<'_>,
        frontier: &Frontier,
    ) -> Result<(), AllocError>
        ensures { OnOk result ((past : Past) → AreObjects objects.now past → IsFrontier frontier.now (nodes past) → AreOwners self.old past → AreOwners self.new (point_of point.now ∷ past)) }
    {
        match point.action {
            Action::Run(command) => {
                self.note_command(point.queue, command, objects, frontier)?;
                Ok(())
            }
            Action::Host(_) => Ok(()),
            Action::Wait(_) => Ok(()),
            Action::Signal(_) => Ok(()),
        }
    }

    fn note_command(
        &mut self,
        queue: u32,
        command: &'a Cmd,
        objects: &Objects<'_>,
        frontier: &Frontier,
    ) -> Result<(), AllocError>
        ensures { OnOk result ((past : Past) (w : World) (ns : List Node) (p : AnyPoint) → p.queue ≡ queue → AreObjects objects.now past → IsFrontier frontier.now ns → AreOwned self.old w.owner ns
            → AreOwned self.new (effect.after_command past (family_of queue) command.now w).owner (with_acts p (command_acts command.now) ns)) }
    {
        match command {
            Cmd::Barrier { elements } => {
                self.note_elements(queue, elements.as_slice(), objects, frontier)?;
                Ok(())
            }
            Cmd::Set { .. } => Ok(()),
            Cmd::Await { .. } => Ok(()),
            _ => {
                self.use_both(used_by(command), family_of(queue), objects)?;
                Ok(())
            }
        }
    }

    /// A use of what a command uses, by a queue family.
    fn use_both(&mut self, used: Used, family: u32, objects: &Objects<'_>) -> Result<(), AllocError>
        ensures { OnOk result ((past : Past) → AreObjects objects.now past → (r : ℕ) → kept_at self.new r
            ≡ (if among r (option_list used.first ++ option_list used.second) && is_exclusive past r then Some (owned_by family) else kept_at self.old r)) }
    {
        self.use_some(used.first, family, objects)?;
        self.use_some(used.second, family, objects)?;
        Ok(())
    }

    fn use_some(
        &mut self,
        id: Option<u32>,
        family: u32,
        objects: &Objects<'_>,
    ) -> Result<(), AllocError>
        ensures { OnOk result ((past : Past) → AreObjects objects.now past → (r : ℕ) → kept_at self.new r
            ≡ (if is_taken past r id then Some (owned_by family) else kept_at self.old r)) }
    {
        match id {
            Some(id) if objects.is_exclusive(id) => self.give(id, family),
            _ => Ok(()),
        }
    }

    fn note_elements(
        &mut self,
        queue: u32,
        elements: &'a [Element],
        objects: &Objects<'_>,
        frontier: &Frontier,
    ) -> Result<(), AllocError>
        ensures { OnOk result ((past : Past) (w : World) (ns : List Node) (p : AnyPoint) → p.queue ≡ queue → AreObjects objects.now past → IsFrontier frontier.now ns → AreOwned self.old w.owner ns
            → AreOwned self.new (fold (effect.after_element past (family_of queue)) w elements.now).owner (with_acts p (map (Depends Barrier) elements.now) ns)) }
    {
        if is_memory_alone(elements) {
            return Ok(());
        }
        let mut counts = ElementCounts::of(frontier, queue);
        for element in elements {
            self.note_element(queue, element, &mut counts, objects)?;
        }
        Ok(())
    }

    fn note_element(
        &mut self,
        queue: u32,
        element: &'a Element,
        counts: &mut ElementCounts,
        objects: &Objects<'_>,
    ) -> Result<(), AllocError>
        ensures { OnOk result ((past : Past) (w : World) (ns : List Node) (n : Node) → IsNumbered (n ∷ ns) → n.point.queue ≡ queue → n.act ≡ Depends Barrier element.now
            → AreObjects objects.now past → AreElementCounts counts.old queue ns → AreOwned self.old w.owner ns
            → AreElementCounts counts.new queue (n ∷ ns) × AreOwned self.new (effect.after_element past (family_of queue) w element.now).owner (n ∷ ns)) }
    {
        let line = Line::of(queue, &Act::Barrier(element));
        let Some(place) = counts.take(line) else {
            return Err(AllocError);
        };
        self.change(family_of(queue), element, Spot { line, place }, objects)?;
        Ok(())
    }

    /// What an element does on a queue of a family, where its node is at a spot.
    fn change(
        &mut self,
        family: u32,
        element: &'a Element,
        spot: Spot,
        objects: &Objects<'_>,
    ) -> Result<(), AllocError>
        ensures { OnOk result ((past : Past) → AreObjects objects.now past → (r : ℕ) → kept_at self.new r ≡ owners.after_element past family element.now spot r (kept_at self.old r)) }
    {
        match element {
            Element::Memory(_) => Ok(()),
            Element::Buffer(on_buffer) => match Transfer::of(family, on_buffer.families) {
                Transfer::Release => self.release(on_buffer.buffer, family, element, spot),
                Transfer::Acquire => self.give(on_buffer.buffer, family),
                Transfer::Stays => Ok(()),
                Transfer::Neither => Ok(()),
            },
            Element::Image(on_image) => match Transfer::of(family, on_image.families) {
                Transfer::Release => self.release(on_image.image, family, element, spot),
                Transfer::Acquire => self.give(on_image.image, family),
                Transfer::Stays if is_transition(on_image) => {
                    self.use_some(Some(on_image.image), family, objects)
                }
                Transfer::Stays => Ok(()),
                Transfer::Neither => Ok(()),
            },
        }
    }

    fn release(
        &mut self,
        id: u32,
        family: u32,
        element: &'a Element,
        spot: Spot,
    ) -> Result<(), AllocError>
        ensures { OnOk result ((other : ℕ) → kept_at self.new other ≡ (if other == id then Some (owners.released_by family element.now spot) else kept_at self.old other)) }
    {
        self.set(
            id,
            Owned::Released(Release {
                family,
                element,
                spot,
            }),
        )
    }

    fn give(&mut self, id: u32, family: u32) -> Result<(), AllocError>
        ensures { OnOk result ((other : ℕ) → kept_at self.new other ≡ (if other == id then Some (owned_by family) else kept_at self.old other)) }
    {
        self.set(id, Owned::Family(family))
    }

    fn set(&mut self, id: u32, owned: Owned<'a>) -> Result<(), AllocError>
        ensures { OnOk result ((other : ℕ) → kept_at self.new other ≡ (if other == id then Some (owners.kept_of owned.entry) else kept_at self.old other)) }
    {
        self.owned.put(id, owned)?;
        Ok(())
    }
}

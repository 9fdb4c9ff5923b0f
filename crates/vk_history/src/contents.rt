ghost use Rattle.std.specs.Prelude.{◌≡◌, ◌≢◌, ◌∷◌, [], ℕ, OnOk, IfSome, IsSome, IsTrue, None, false, Some};
ghost use Rattle.std.specs.Option.{option_map};
ghost use Rattle.vk_ids.specs.Ids.{value_of};
ghost use Rattle.vk_model.specs.Trace.Point.{Past};
ghost use Rattle.vk_model.specs.Rules.Sizes.{bad_image};
ghost use Rattle.vk_model.specs.Rules.Table.{fault};
ghost use Rattle.vk_model.specs.Sync.Node.{nodes};
ghost use Rattle.vk_image_bytes.specs.Numbers.{byte_count};
ghost use Rattle.vk_order.specs.Frontiers.{IsFrontier};
ghost use Rattle.vk_model.specs.Trace.PointViews.{point_of};
ghost use Rattle.vk_order.specs.declared.access.Access.TheVariants.{Read as AsRead};
ghost use Rattle.vk_touches.specs.declared.bytes.Bytes.TheVariants.{Buffer as OfBuffer};
ghost use Rattle.vk_touches.specs.Conflicts.{SeesWrite};
ghost use Rattle.vk_history.specs.Tabled.{AreObjects};
ghost use Rattle.vk_touches.specs.Touched.{next_spot};
ghost use Rattle.vk_history.specs.Contents.{AreContents, IsMade, IsRead, IsSet, IsFlushed, IsInvalidated, BecomesIn, IsWrittenBy, IsClearedBy};

use crate::acts::act_of;
use crate::changes::{Change, change_by};
use crate::families::family_of;
use crate::objects::Objects;
use crate::resource_contents::{ResourceContents, write_all};
use crate::stretches::Stretch;
use std::alloc::{AllocError, Global};
use std::vec::Vec;
use vk_ids::IdMap;
use vk_image_tiles::has_bad_shape;
use vk_model::{BufferInfo, ImageInfo, Length, Point, SubresourceRange};
use vk_order::{Access, Frontier, NewNode};
use vk_touches::{Bytes, ResourceAccess, Spot};

/// What is known of the bytes of each resource.
#[derive(Drop)]
pub struct Contents {
    pub(crate) alloc: Global,
    pub(crate) resources: IdMap<ResourceContents>,
    /// Room for what the regions of a copy find; what is in it means nothing between copies.
    pub(crate) stretches: Vec<Stretch>,
}

impl Contents {
    /// Before the first point.
    pub fn new(alloc: Global) -> Contents
        ensures { AreContents result [] }
    {
        Contents {
            alloc,
            resources: IdMap::new(alloc),
            stretches: Vec::new(alloc),
        }
    }

    /// What is known of the bytes of a resource.
    pub fn of(&self, resource: u32) -> Option<&ResourceContents>
        ensures { option_map (λ c. c.now) result ≡ value_of self.now.resources resource }
    {
        self.resources.get(resource)
    }

    /// Takes the next point, whose node has this spot, by the objects after it and what is known of
    /// the nodes before it.
    pub fn note(
        &mut self,
        point: &Point<'_>,
        spot: Spot,
        objects: &Objects<'_>,
        frontier: &Frontier,
    ) -> Result<(), AllocError>
        ensures { OnOk result ((past : Past) → fault (point_of point.now ∷ past) ≡ None → spot ≡ next_spot past (point_of point.now)
            → AreObjects objects.now (point_of point.now ∷ past) → IsFrontier frontier.now (nodes past) → AreContents self.old past → AreContents self.new (point_of point.now ∷ past)) }
    {
        let queue = point.queue;
        match change_by(point) {
            Change::Nothing => Ok(()),
            Change::Made(buffer, info) => self.make(buffer, info, objects.is_cached(buffer)),
            Change::ImageMade(image, info) => {
                self.make_image(image, info, objects.is_cached(image))
            }
            Change::HostRead(buffer, offset, size) => self.read(buffer, offset, size, spot),
            Change::HostWritten(buffer, offset, size) => self.set(buffer, offset, size, spot),
            Change::Flushed(buffer, offset, size) => self.flush(buffer, offset, size, spot),
            Change::Invalidated(buffer, offset, size) => {
                let new_node = &frontier.new_node(point, &act_of(point))?;
                let by = reading(frontier, new_node, buffer);
                self.invalidate(buffer, offset, size, &by)
            }
            Change::Written(buffer, offset, size) => self.write(buffer, offset, size, queue, spot),
            Change::Cleared(image, ranges) => self.clear(image, ranges, queue, spot),
            Change::Copied(source, destination, regions) => {
                self.copy(source, destination, regions, queue, spot)
            }
            Change::CopiedIn(buffer, image, regions) => {
                let copies = self.copies_in(image, regions)?;
                self.copy(buffer, image, copies.as_slice(), queue, spot)
            }
            Change::CopiedOut(image, buffer, regions) => {
                let copies = self.copies_out(image, regions)?;
                self.copy(image, buffer, copies.as_slice(), queue, spot)
            }
            Change::CopiedImage(source, destination, regions) => {
                let copies = self.copies_between(source, destination, regions)?;
                self.copy(source, destination, copies.as_slice(), queue, spot)
            }
            Change::Passed(elements) => self.pass_all(queue, elements, frontier),
        }
    }

    fn make(&mut self, buffer: u32, info: &BufferInfo, is_cached: bool) -> Result<(), AllocError>
        ensures here { OnOk result (IfSome (value_of self.new.resources buffer) (λ contents. IsMade contents info.now.size info.now.sharing is_cached None)) }
        ensures present { OnOk result (IsSome (value_of self.new.resources buffer)) }
        ensures others { OnOk result ((other : ℕ) → other ≢ buffer → value_of self.new.resources other ≡ value_of self.old.resources other) }
    {
        let contents = ResourceContents::of_buffer(self.alloc, info, is_cached)?;
        self.resources.put(buffer, contents)?;
        Ok(())
    }

    /// An image of a shape that breaks no rule.
    fn make_image(
        &mut self,
        image: u32,
        info: &ImageInfo,
        is_cached: bool,
    ) -> Result<(), AllocError>
        ensures here { OnOk result (bad_image info.now ≡ false → IfSome (value_of self.new.resources image) (λ contents. IsMade contents (byte_count info.now) info.now.sharing is_cached (Some info.now))) }
        ensures present { OnOk result (bad_image info.now ≡ false → IsSome (value_of self.new.resources image)) }
        ensures others { OnOk result ((other : ℕ) → other ≢ image → value_of self.new.resources other ≡ value_of self.old.resources other) }
    {
        if has_bad_shape(info) {
            return Ok(());
        }
        let contents = ResourceContents::of_image(self.alloc, info, is_cached)?;
        self.resources.put(image, contents)?;
        Ok(())
    }

    fn read(&mut self, buffer: u32, offset: u64, size: u64, spot: Spot) -> Result<(), AllocError>
        ensures here { OnOk result (BecomesIn (λ old new. IsRead old new offset size spot) (value_of self.old.resources buffer) (value_of self.new.resources buffer)) }
        ensures others { OnOk result ((other : ℕ) → other ≢ buffer → value_of self.new.resources other ≡ value_of self.old.resources other) }
    {
        match self.resources.get_mut(buffer) {
            Some(contents) => contents.read(offset, size, spot),
            None => Ok(()),
        }
    }

    fn set(&mut self, buffer: u32, offset: u64, size: u64, spot: Spot) -> Result<(), AllocError>
        ensures here { OnOk result (BecomesIn (λ old new. IsSet old new offset size spot) (value_of self.old.resources buffer) (value_of self.new.resources buffer)) }
        ensures others { OnOk result ((other : ℕ) → other ≢ buffer → value_of self.new.resources other ≡ value_of self.old.resources other) }
    {
        match self.resources.get_mut(buffer) {
            Some(contents) => contents.set(offset, size, spot),
            None => Ok(()),
        }
    }

    fn flush(
        &mut self,
        buffer: u32,
        offset: u64,
        size: Length,
        spot: Spot,
    ) -> Result<(), AllocError>
        ensures here { OnOk result (BecomesIn (λ old new. IsFlushed old new offset size spot) (value_of self.old.resources buffer) (value_of self.new.resources buffer)) }
        ensures others { OnOk result ((other : ℕ) → other ≢ buffer → value_of self.new.resources other ≡ value_of self.old.resources other) }
    {
        match self.resources.get_mut(buffer) {
            Some(contents) => contents.flush(offset, size, spot),
            None => Ok(()),
        }
    }

    /// Invalidates a range of a buffer, by an entry of the host that reads as this says.
    fn invalidate(
        &mut self,
        buffer: u32,
        offset: u64,
        size: Length,
        by: &ResourceAccess<'_>,
    ) -> Result<(), AllocError>
        requires { by.now.bytes ≡ OfBuffer buffer }
        ensures here { OnOk result (BecomesIn (λ old new. IsInvalidated (SeesWrite by.now) old new offset size) (value_of self.old.resources buffer) (value_of self.new.resources buffer)) }
        ensures others { OnOk result ((other : ℕ) → other ≢ buffer → value_of self.new.resources other ≡ value_of self.old.resources other) }
    {
        match self.resources.get_mut(buffer) {
            Some(contents) => contents.invalidate(offset, size, by),
            None => Ok(()),
        }
    }

    fn write(
        &mut self,
        buffer: u32,
        offset: u64,
        size: Length,
        queue: u32,
        spot: Spot,
    ) -> Result<(), AllocError>
        ensures here { OnOk result (BecomesIn (IsWrittenBy offset size queue spot) (value_of self.old.resources buffer) (value_of self.new.resources buffer)) }
        ensures others { OnOk result ((other : ℕ) → other ≢ buffer → value_of self.new.resources other ≡ value_of self.old.resources other) }
    {
        match self.resources.get_mut(buffer) {
            Some(contents) => write_all(contents, offset, size, queue, spot),
            None => Ok(()),
        }
    }

    fn clear(
        &mut self,
        image: u32,
        ranges: &[SubresourceRange],
        queue: u32,
        spot: Spot,
    ) -> Result<(), AllocError>
        ensures here { OnOk result (BecomesIn (IsClearedBy ranges.now queue spot) (value_of self.old.resources image) (value_of self.new.resources image)) }
        ensures others { OnOk result ((other : ℕ) → other ≢ image → value_of self.new.resources other ≡ value_of self.old.resources other) }
    {
        match self.resources.get_mut(image) {
            Some(contents) => contents.clear(ranges, family_of(queue), spot),
            None => Ok(()),
        }
    }
}

/// How a node that comes next reads a buffer.
fn reading<'b>(frontier: &'b Frontier, new_node: &'b NewNode<'b>, buffer: u32) -> ResourceAccess<'b>
    ensures bytes { result.bytes ≡ OfBuffer buffer }
    ensures access { result.access ≡ AsRead }
    ensures frontier { result.frontier.now ≡ frontier.now }
    ensures new_node { result.new_node.now ≡ new_node.now }
{
    ResourceAccess {
        frontier,
        new_node,
        bytes: Bytes::Buffer(buffer),
        access: Access::Read,
    }
}

ghost use Rattle.std.specs.Prelude.{◌≡◌, ◌∷◌, ◌<◌, ◌≢◌, [], ℕ, OnOk, Some, min};
ghost use Rattle.std.specs.Ordering.{nat_cmp};
ghost use Rattle.std.specs.BTreeMap.{get};
ghost use Rattle.vk_model.specs.Memory.Addresses.{need_of};
ghost use Rattle.vk_model.specs.Rules.Binding as binding;
ghost use Rattle.vk_model.specs.Trace.Objects.{Resource, of_buffer, of_image};
ghost use Rattle.vk_model.specs.Trace.Point.{Past};
ghost use Rattle.vk_model.specs.Trace.PointViews.{point_of};
ghost use Rattle.vk_buffer.specs.BoundMemory as memory;
ghost use Rattle.vk_history.specs.Bound.{AreBound, AreOthers, BindsBy, ChangesBound, IsMadeIn, UnbindsBy, IsBindOf, IsUnbindOf};
ghost use Rattle.vk_history.specs.Judged.{IsJudged};
ghost use Rattle.vk_history.specs.Tabled.{AreObjects};

use crate::objects::Objects;
use crate::places::bound_at;
use std::alloc::{AllocError, Global};
use std::collections::BTreeMap;
use vk_buffer::{Bindings, requirements};
use vk_image_tiles::Shape;
use vk_model::{Action, BufferInfo, Entry, ImageInfo, Kind, MemoryInfo, Need, Point};

/// What is bound in each memory object.
#[derive(Drop)]
pub struct BoundMemories {
    alloc: Global,
    memories: BTreeMap<u32, Bindings>,
}

impl BoundMemories {
    /// Before the first point.
    pub fn new(alloc: Global) -> BoundMemories
        ensures { AreBound result [] }
    {
        BoundMemories {
            alloc,
            memories: BTreeMap::new(alloc),
        }
    }

    /// Whether a resource that asks for so many bytes would conflict, at an offset of a memory object,
    /// with a live resource there. It's as good to ask for all that is above the greatest size as for one
    /// byte more than that.
    pub fn is_aliased(&self, memory: u32, offset: u64, size: u64, kind: Kind) -> bool
        ensures { (past : Past) (r : Resource) → AreBound self.now past → size ≡ min r.size 67108865 → kind ≡ r.kind → result ≡ binding.is_aliased past r memory offset }
    {
        match self.memories.get(&memory) {
            Some(bindings) => bindings.is_aliased(offset, size, kind),
            None => false,
        }
    }

    /// Takes the next point, by the objects so far.
    pub fn note(&mut self, point: &Point<'_>, objects: &Objects<'_>) -> Result<(), AllocError>
        ensures { OnOk result ((past : Past) → IsJudged (point_of point.now ∷ past) → AreObjects objects.now past
            → AreBound self.old past → AreBound self.new (point_of point.now ∷ past)) }
    {
        match point.action {
            Action::Host(entry) => self.change_by(entry, objects),
            _ => Ok(()),
        }
    }

    fn change_by(&mut self, entry: &Entry, objects: &Objects<'_>) -> Result<(), AllocError>
        ensures { OnOk result ((past : Past) → AreObjects objects.now past → ChangesBound past entry.now self.old self.new) }
    {
        match entry {
            Entry::Memory { id, info } => self.make(*id, info),
            Entry::Buffer { info, .. } => self.bind_buffer(info),
            Entry::Image { info, .. } => self.bind_image(info),
            Entry::Destroy { resource } => {
                self.unbind(objects.bound_at(*resource));
                Ok(())
            }
            _ => Ok(()),
        }
    }

    fn bind_buffer(&mut self, info: &BufferInfo) -> Result<(), AllocError>
        ensures { OnOk result (BindsBy self.old self.new (of_buffer info.now)) }
    {
        let Some((memory, offset)) = bound_at(info.place) else {
            return Ok(());
        };
        match requirements(info.size, info.usage) {
            Ok(need) => self.bind(memory, offset, need, Kind::Linear),
            Err(_) => Err(AllocError),
        }
    }

    fn bind_image(&mut self, info: &ImageInfo) -> Result<(), AllocError>
        ensures { OnOk result (BindsBy self.old self.new (of_image info.now)) }
    {
        let Some((memory, offset)) = bound_at(info.place) else {
            return Ok(());
        };
        match Shape::of(info) {
            Ok(shape) => self.bind(memory, offset, shape.requirements(), info.tiling),
            Err(_) => Err(AllocError),
        }
    }

    // A point that breaks no rule isn't refused, as `vk_buffer::bindings_are_judged` says. What is refused
    // all the same would be answered as want of memory.
    fn bind(&mut self, id: u32, offset: u64, need: Need, kind: Kind) -> Result<(), AllocError>
        ensures here { OnOk result (IsBindOf (get nat_cmp self.old.memories id) (get nat_cmp self.new.memories id) offset need kind) }
        ensures others { OnOk result (AreOthers self.old self.new id) }
    {
        if need.size == 0 || need.align == 0 {
            return Err(AllocError);
        }
        match self.memories.get_mut(&id) {
            Some(bindings) => bind_in(bindings, offset, need, kind),
            None => Err(AllocError),
        }
    }

    fn unbind(&mut self, place: Option<(u32, u64)>)
        ensures { UnbindsBy self.old self.new place }
    {
        if let Some((memory, offset)) = place {
            self.unbind_at(memory, offset);
        }
    }

    fn unbind_at(&mut self, id: u32, offset: u64)
        ensures here { IsUnbindOf (get nat_cmp self.old.memories id) (get nat_cmp self.new.memories id) offset }
        ensures others { AreOthers self.old self.new id }
    {
        if let Some(bindings) = self.memories.get_mut(&id) {
            bindings.unbind(offset);
        }
    }

    fn make(&mut self, id: u32, info: &MemoryInfo) -> Result<(), AllocError>
        ensures { OnOk result (IsMadeIn self.old self.new id info.now) }
    {
        let bindings = Bindings::new(self.alloc, info.size, info.memory_type);
        self.memories.insert(id, bindings)?;
        Ok(())
    }
}

fn bind_in(bindings: &mut Bindings, offset: u64, need: Need, kind: Kind) -> Result<(), AllocError>
    requires some { 0 < need.size }
    requires aligned { 0 < need.align }
    ensures { OnOk result (IsBindOf (Some bindings.old) (Some bindings.new) offset need kind) }
{
    match bindings.bind(offset, need, kind) {
        Ok(()) => Ok(()),
        Err(_) => Err(AllocError),
    }
}

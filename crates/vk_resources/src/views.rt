ghost use Rattle.std.specs.Prelude.{◌≡◌, option_map};
ghost use Rattle.std.specs.Option.{option_copied};
ghost use Rattle.vk_resources.specs.Held.{shape_of};

use crate::resources::{Placed, Resources};
use std::collections::BTreeMap;
use vk_backing::Backing;
use vk_image_tiles::Shape;
use vk_memory::Memories;
use vk_model::Kind;

impl Resources {
    /// The memory objects.
    pub fn memories(&self) -> &Memories
        ensures { result.now ≡ self.now.memory }
    {
        &self.memories
    }

    /// What backs ids with memory objects, their own or those of pools.
    pub fn backing(&self) -> &Backing
        ensures { result.now ≡ self.now.backed }
    {
        &self.backing
    }

    /// Where each buffer and each image lies, by their ids.
    pub fn places(&self) -> &BTreeMap<u32, Placed>
        ensures { result.now.entries ≡ self.now.resources }
    {
        &self.resources
    }

    /// The shape of an image, by its id; none where there is no such image.
    pub fn shape(&self, id: u32) -> Option<&Shape>
        ensures { option_copied result ≡ shape_of self.now id }
    {
        self.shapes.get(&id)
    }

    /// How the texels of an image lie, by its id; none where there is no such image.
    pub fn tiling(&self, id: u32) -> Option<Kind>
        ensures { result ≡ option_map (λ m. m.tiling) (shape_of self.now id) }
    {
        match self.shapes.get(&id) {
            Some(shape) => Some(shape.image().tiling),
            None => None,
        }
    }
}

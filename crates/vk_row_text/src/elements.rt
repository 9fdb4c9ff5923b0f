use crate::items::{Item, call_of};
use crate::names::ItemName;
use crate::words::{Call, Word};
use std::alloc::{AllocError, Global};
use vk_model::{BufferElement, Dependency, Element, ImageElement};

impl Item for Dependency {
    ghost use Rattle.vk_row_text.specs.Regions.{dependency_item};

    ghost item = { dependency_item };

    fn item(&self, alloc: Global) -> Result<Call, AllocError> {
        let words = Vec::from_array(
            alloc,
            [
                Word::Stages(self.source_stages),
                Word::Accesses(self.source_accesses),
                Word::Stages(self.destination_stages),
                Word::Accesses(self.destination_accesses),
            ],
        )?;
        Ok(call_of(ItemName::MemoryBarrier, words))
    }
}

impl Item for BufferElement {
    ghost use Rattle.vk_row_text.specs.Regions.{buffer_element_item};

    ghost item = { buffer_element_item };

    fn item(&self, alloc: Global) -> Result<Call, AllocError> {
        let words = Vec::from_array(
            alloc,
            [
                Word::Stages(self.dependency.source_stages),
                Word::Accesses(self.dependency.source_accesses),
                Word::Stages(self.dependency.destination_stages),
                Word::Accesses(self.dependency.destination_accesses),
                Word::Family(self.families.source),
                Word::Family(self.families.destination),
                Word::Number(self.buffer as u64),
                Word::Number(self.offset),
                Word::Bytes(self.size),
            ],
        )?;
        Ok(call_of(ItemName::BufferBarrier, words))
    }
}

impl Item for ImageElement {
    ghost use Rattle.vk_row_text.specs.Regions.{image_element_item};

    ghost item = { image_element_item };

    fn item(&self, alloc: Global) -> Result<Call, AllocError> {
        let words = Vec::from_array(
            alloc,
            [
                Word::Stages(self.dependency.source_stages),
                Word::Accesses(self.dependency.source_accesses),
                Word::Stages(self.dependency.destination_stages),
                Word::Accesses(self.dependency.destination_accesses),
                Word::Family(self.families.source),
                Word::Family(self.families.destination),
                Word::Number(self.image as u64),
                Word::Layout(self.old_layout),
                Word::Layout(self.new_layout),
                Word::Range(self.range),
            ],
        )?;
        Ok(call_of(ItemName::ImageBarrier, words))
    }
}

impl Item for Element {
    ghost use Rattle.vk_row_text.specs.Regions.{element_item};

    ghost item = { element_item };

    fn item(&self, alloc: Global) -> Result<Call, AllocError> {
        match self {
            Element::Memory(dependency) => dependency.item(alloc),
            Element::Buffer(buffer) => buffer.item(alloc),
            Element::Image(image) => image.item(alloc),
        }
    }
}

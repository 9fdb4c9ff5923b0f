use crate::items::{Item, call_of};
use crate::names::ItemName;
use crate::words::{Call, Word};
use std::alloc::{AllocError, Global};
use vk_model::{BufferCopy, BufferImageCopy, ImageCopy, SemaphoreValue, SubresourceRange};

impl Item for u32 {
    ghost use Rattle.vk_row_text.specs.Regions.{id_item};

    ghost item = { id_item };

    fn item(&self, alloc: Global) -> Result<Call, AllocError> {
        let words = Vec::from_array(alloc, [Word::Number(*self as u64)])?;
        Ok(call_of(ItemName::Id, words))
    }
}

impl Item for SemaphoreValue {
    ghost use Rattle.vk_row_text.specs.Regions.{value_item};

    ghost item = { value_item };

    fn item(&self, alloc: Global) -> Result<Call, AllocError> {
        let words = Vec::from_array(
            alloc,
            [
                Word::Number(self.semaphore as u64),
                Word::Number(self.value),
            ],
        )?;
        Ok(call_of(ItemName::Semaphore, words))
    }
}

impl Item for SubresourceRange {
    ghost use Rattle.vk_row_text.specs.Regions.{range_item};

    ghost item = { range_item };

    fn item(&self, alloc: Global) -> Result<Call, AllocError> {
        let words = Vec::from_array(
            alloc,
            [
                Word::Number(self.first_level as u64),
                Word::Number(self.levels as u64),
                Word::Number(self.first_layer as u64),
                Word::Number(self.layers as u64),
            ],
        )?;
        Ok(call_of(ItemName::Range, words))
    }
}

impl Item for BufferCopy {
    ghost use Rattle.vk_row_text.specs.Regions.{copy_item};

    ghost item = { copy_item };

    fn item(&self, alloc: Global) -> Result<Call, AllocError> {
        let words = Vec::from_array(
            alloc,
            [
                Word::Number(self.source_offset),
                Word::Number(self.destination_offset),
                Word::Number(self.size),
            ],
        )?;
        Ok(call_of(ItemName::Copy, words))
    }
}

impl Item for BufferImageCopy {
    ghost use Rattle.vk_row_text.specs.Regions.{buffer_image_item};

    ghost item = { buffer_image_item };

    fn item(&self, alloc: Global) -> Result<Call, AllocError> {
        let words = Vec::from_array(
            alloc,
            [
                Word::Number(self.buffer_offset),
                Word::Number(self.row_length as u64),
                Word::Number(self.image_height as u64),
                Word::Number(self.level as u64),
                Word::Number(self.first_layer as u64),
                Word::Number(self.layers as u64),
                Word::Number(self.x as u64),
                Word::Number(self.y as u64),
                Word::Number(self.width as u64),
                Word::Number(self.height as u64),
            ],
        )?;
        Ok(call_of(ItemName::BufferImageCopy, words))
    }
}

impl Item for ImageCopy {
    ghost use Rattle.vk_row_text.specs.Regions.{image_item};

    ghost item = { image_item };

    fn item(&self, alloc: Global) -> Result<Call, AllocError> {
        let words = Vec::from_array(
            alloc,
            [
                Word::Number(self.source_level as u64),
                Word::Number(self.source_first_layer as u64),
                Word::Number(self.destination_level as u64),
                Word::Number(self.destination_first_layer as u64),
                Word::Number(self.layers as u64),
                Word::Number(self.source_x as u64),
                Word::Number(self.source_y as u64),
                Word::Number(self.destination_x as u64),
                Word::Number(self.destination_y as u64),
                Word::Number(self.width as u64),
                Word::Number(self.height as u64),
            ],
        )?;
        Ok(call_of(ItemName::ImageCopy, words))
    }
}

ghost use Rattle.std.specs.Prelude.{◌≡◌, ◌≤◌, ◌<◌, ◌+◌, ◌-◌, ◌*◌, ◌^◌};
ghost use Rattle.vk_image_bytes.specs.Numbers as numbers;
ghost use Rattle.vk_image_bytes.specs.Ranges.{AreRanges};

use crate::image_bytes::ImageBytes;
use vk_model::SubresourceRange;

/// Ranges of bytes of an image that all have one size.
#[derive(Clone, Copy, Debug)]
pub struct ByteRanges {
    /// The number of the first byte of the first range.
    pub first: u64,
    /// How many bytes each range has.
    pub size: u64,
    /// How far it is from the first byte of a range to that of the next.
    pub step: u64,
    /// How many ranges there are.
    pub count: u32,
}

impl ByteRanges {
    /// The number of the first byte of a range.
    pub fn low(&self, index: u32) -> u64
        requires { self.now.first + index * self.now.step < 2 ^ 64 }
        ensures { result ≡ self.now.first + index * self.now.step }
    {
        self.first + u64::from(index) * self.step
    }
}

impl ImageBytes {
    /// The bytes of a range of levels and layers, as few ranges as can be: one for each layer, or a
    /// single one where it has all levels. Of what the image doesn't have there are none.
    pub fn ranges(&self, range: &SubresourceRange) -> ByteRanges
        ensures { AreRanges self.now range.now result }
    {
        let (layers, levels) = (self.layers(), self.levels());
        let low = range.first_level.min(levels);
        let high = range.first_level.saturating_add(range.levels).min(levels);
        let layer = range.first_layer.min(layers);
        let end = range.first_layer.saturating_add(range.layers).min(layers);
        if low == 0 && high == levels {
            self.whole_layers(layer, end)
        } else {
            self.parts_of_layers(low, high, layer, end)
        }
    }

    /// All levels of layers.
    fn whole_layers(&self, layer: u32, end: u32) -> ByteRanges
        requires order { layer ≤ end }
        requires within { end ≤ self.now.layers }
        ensures first { result.first ≡ layer * numbers.layer_byte_count self.now }
        ensures size { result.size ≡ (end - layer) * numbers.layer_byte_count self.now }
        ensures step { result.step ≡ 0 }
        ensures count { result.count ≡ 1 }
    {
        let len = self.layer_len();
        ByteRanges {
            first: u64::from(layer) * len,
            size: u64::from(end - layer) * len,
            step: 0,
            count: 1,
        }
    }

    /// Some levels of layers.
    fn parts_of_layers(&self, low: u32, high: u32, layer: u32, end: u32) -> ByteRanges
        requires levels { low ≤ high }
        requires levels_there { high ≤ self.now.levels }
        requires layers { layer ≤ end }
        requires layers_there { end ≤ self.now.layers }
        ensures first { result.first ≡ layer * numbers.layer_byte_count self.now + numbers.level_first self.now low }
        ensures size { result.size ≡ numbers.level_first self.now high - numbers.level_first self.now low }
        ensures step { result.step ≡ numbers.layer_byte_count self.now }
        ensures count { result.count ≡ end - layer }
    {
        let len = self.layer_len();
        let first = self.level_first(low);
        ByteRanges {
            first: u64::from(layer) * len + first,
            size: self.level_first(high) - first,
            step: len,
            count: end - layer,
        }
    }
}

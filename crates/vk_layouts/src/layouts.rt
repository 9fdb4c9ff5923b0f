ghost use Rattle.std.specs.Prelude.{◌≡◌, ◌≤◌, ◌<◌, ◌+◌, ◌↔◌, ◌&&◌, ℕ, not, length, if◌then◌else◌, IfOk, IsTrue};
ghost use Rattle.vk_model.specs.declared.command.ImageElement.{ImageElement};
ghost use Rattle.vk_model.specs.Basics.{within};
ghost use Rattle.vk_model.specs.World.Bytes.{World, new_world};
ghost use Rattle.vk_model.specs.World.Effect.{layout_after};
ghost use Rattle.vk_model.specs.Rules.Layouts.{has_other_layout};
ghost use Rattle.vk_layouts.specs.ImageLayouts.{layout_at, AreLayouts, HaveLayers, IsWithin};
ghost use Rattle.vk_layouts.specs.Inner.Ranges.{may_be_in, AreIn};

use crate::level::Level;
use std::alloc::{AllocError, Global};
use std::marker::Model;
use std::ops::Range;
use vk_model::{Layout, SubresourceRange};

/// The layout of each subresource of an image.
#[derive(Drop)]
pub struct Layouts {
    layers: u32,
    levels: Vec<Level>,
}

impl Model for Layouts {
    ghost use Rattle.vk_layouts.specs.ImageLayouts.{ImageLayouts, HaveLayers};

    ghost Value = { ImageLayouts };

    ghost view = { λ s. record { layers = s.layers; levels = s.levels.items } };

    ghost invariant = { λ s. HaveLayers s.layers s.levels.items };
}

impl Layouts {
    /// Those of a new image with so many levels and layers: all UNDEFINED. The only error is want of
    /// memory.
    pub fn new(alloc: Global, levels: u32, layers: u32) -> Result<Layouts, AllocError>
        ensures levels { IfOk result (λ s. length s.levels ≡ levels) }
        ensures layers { IfOk result (λ s. s.layers ≡ layers) }
        ensures undefined { IfOk result (λ s. (image : ℕ)
            → AreLayouts s (new_world.layout image)) }
    {
        let mut list = Vec::new(alloc);
        for _level in 0..levels {
            list.push(Level::new(alloc, layers)?)?;
        }
        Ok(Layouts {
            layers,
            levels: list,
        })
    }

    /// The layout of a subresource; UNDEFINED where the image has no such one.
    pub fn current(&self, level: u32, layer: u32) -> Layout
        ensures { result ≡ layout_at self.now level layer }
    {
        match self.levels.get(level as usize) {
            Some(there) => there.at(layer),
            None => Layout::UNDEFINED,
        }
    }

    /// Whether all subresources of a range are in a layout. One that the image doesn't have is
    /// UNDEFINED.
    pub fn is_in(&self, range: &SubresourceRange, layout: Layout) -> bool
        ensures { (w : World) (image : ℕ) → AreLayouts self.now (w.layout image)
            → result ≡ not (has_other_layout w image range.now layout) }
    {
        self.may_be_in(range, layout) && self.are_in(range, layout)
    }

    /// Whether the subresources of a range that the image doesn't have, if any, are in a layout.
    fn may_be_in(&self, range: &SubresourceRange, layout: Layout) -> bool
        ensures may { result ≡ may_be_in self.now range.now layout }
        ensures layers { HaveLayers self.now.layers self.now.levels }
    {
        let _layers = self.layers;
        layout == Layout::UNDEFINED || range.levels == 0 || range.layers == 0 || self.has(range)
    }

    /// Whether a range is of the image's levels and layers.
    pub fn has(&self, range: &SubresourceRange) -> bool
        ensures { IsTrue result ↔ IsWithin self.now range.now }
    {
        range.first_level as usize + range.levels as usize <= self.levels.len()
            && u64::from(range.first_layer) + u64::from(range.layers) <= u64::from(self.layers)
    }

    /// Whether the subresources of a range that the image has are in a layout.
    fn are_in(&self, range: &SubresourceRange, layout: Layout) -> bool
        ensures { IsTrue result ↔ AreIn self.now range.now layout }
    {
        let levels = part(range.first_level, range.levels, self.levels.len());
        let layers = part(range.first_layer, range.layers, self.layers as usize);
        for level in levels.start..levels.end {
            if !self.levels[level].are_in(layers.start, layers.end, layout) {
                return false;
            }
        }
        true
    }

    /// Puts the subresources of a range of the image in a layout, as a transition does.
    pub fn transition(&mut self, range: &SubresourceRange, layout: Layout)
        requires { IsWithin self.old range.now }
        ensures levels { length self.new.levels ≡ length self.old.levels }
        ensures layers { self.new.layers ≡ self.old.layers }
        ensures layouts { (level layer : ℕ) → layout_at self.new level layer
            ≡ (if within range.now.first_level range.now.levels level
            && within range.now.first_layer range.now.layers layer then layout
            else layout_at self.old level layer) }
        ensures world { (w : World) (e : ImageElement) → e.range ≡ range.now
            → e.new_layout ≡ layout → AreLayouts self.old (w.layout e.image)
            → AreLayouts self.new (layout_after e w e.image) }
    {
        let low = range.first_layer as usize;
        let high = low + range.layers as usize;
        let first = range.first_level as usize;
        for level in first..first + range.levels as usize {
            self.levels[level].set(low, high, layout);
        }
    }
}

/// The numbers below a limit of so many from a first one on.
fn part(first: u32, count: u32, limit: usize) -> Range<usize>
    ensures order { result.start ≤ result.end }
    ensures within { result.end ≤ limit }
    ensures numbers { (n : ℕ) → ((result.start ≤ n) × (n < result.end))
        ↔ (IsTrue (within first count n) × (n < limit)) }
{
    let start = limit.min(first as usize);
    let end = limit.min(first as usize + count as usize);
    start..end
}

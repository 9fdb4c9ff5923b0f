ghost use Rattle.std.specs.Prelude.{◌≡◌, ◌≤◌, ◌<◌, ◌↔◌, ◌&&◌, ℕ, nat_le, nat_lt, if◌then◌else◌, length, replicate, slice_index, IfOk, IsTrue};

use std::alloc::{AllocError, Global};
use std::marker::Model;
use vk_model::Layout;

/// The layouts of the layers of one level. Contracts see the list of them.
#[derive(Drop)]
pub(crate) struct Level {
    layouts: Vec<Layout>,
}

impl Model for Level {
    ghost use Rattle.std.specs.Prelude.{List, ℕ};

    ghost Value = { List ℕ };

    ghost view = { λ level. level.layouts.items };
}

impl Level {
    /// So many layers, all of them UNDEFINED. The only error is want of memory.
    pub(crate) fn new(alloc: Global, layers: u32) -> Result<Level, AllocError>
        ensures { IfOk result (λ level. level ≡ replicate layers 0) }
    {
        let mut layouts = Vec::new(alloc);
        layouts.resize(layers as usize, Layout::UNDEFINED)?;
        Ok(Level { layouts })
    }

    /// The layout of a layer; UNDEFINED where there is no such layer.
    pub(crate) fn at(&self, layer: u32) -> Layout
        ensures { result ≡ slice_index self.now layer }
    {
        match self.layouts.get(layer as usize) {
            Some(layout) => *layout,
            None => Layout::UNDEFINED,
        }
    }

    /// Whether the layers from `low` to before `high` are in a layout.
    pub(crate) fn are_in(&self, low: usize, high: usize, layout: Layout) -> bool
        requires order { low ≤ high }
        requires within { high ≤ length self.now }
        ensures { IsTrue result ↔ ((layer : ℕ) → low ≤ layer → layer < high
            → slice_index self.now layer ≡ layout) }
    {
        for layer in low..high {
            if self.layouts[layer] != layout {
                return false;
            }
        }
        true
    }

    /// Puts the layers from `low` to before `high` in a layout.
    pub(crate) fn set(&mut self, low: usize, high: usize, layout: Layout)
        requires order { low ≤ high }
        requires within { high ≤ length self.old }
        ensures len { length self.new ≡ length self.old }
        ensures layouts { (layer : ℕ) → slice_index self.new layer
            ≡ (if nat_le low layer && nat_lt layer high then layout
            else slice_index self.old layer) }
    {
        for layer in low..high {
            self.layouts[layer] = layout;
        }
    }
}

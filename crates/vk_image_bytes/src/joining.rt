ghost use Rattle.std.specs.Prelude.{◌≡◌, ◌<◌, ◌++◌, ◌∷◌, [], ◌+◌, ◌↔◌, ℕ, All, IsTrue, OnOk, IfOk, IfSome};
ghost use Rattle.std.specs.List.{flat_map};
ghost use Rattle.vk_model.specs.World.Bytes.{Byte};
ghost use Rattle.vk_image_bytes.specs.Copies.{numbered_writes};
ghost use Rattle.vk_image_bytes.specs.Inner.Rows.{RowsFit, AreAdded, row_copies, layer_copies, gathered, AllLieWithin, LiesWithin};

use crate::rows::Rows;
use std::alloc::{AllocError, Global};
use std::mem::replace;
use vk_model::BufferCopy;

/// Copies of ranges of numbers, gathered in order. Those that follow each other both where they
/// are read and where they are written are one.
#[derive(Drop)]
pub struct Copies {
    done: Vec<BufferCopy>,
    last: BufferCopy,
}

impl Copies {
    /// None yet.
    pub fn new(alloc: Global) -> Copies
        ensures none { (from to : ℕ → Byte) → gathered result from to ≡ [] }
        ensures within { (s d : ℕ) → AllLieWithin s d result }
    {
        Copies {
            done: Vec::new(alloc),
            last: BufferCopy {
                source_offset: 0,
                destination_offset: 0,
                size: 0,
            },
        }
    }

    /// Adds all rows.
    pub fn add_rows(&mut self, rows: &Rows) -> Result<(), AllocError>
        ensures { OnOk result (RowsFit rows.now → AreAdded self.old self.new (row_copies rows.now)) }
    {
        for layer in 0..rows.layers {
            if rows.lie_together() {
                self.add_whole_layer(rows, layer)?;
            } else {
                self.add_layer(rows, layer)?;
            }
        }
        Ok(())
    }

    /// Adds the rows of a layer, one after another.
    fn add_layer(&mut self, rows: &Rows, layer: u32) -> Result<(), AllocError>
        ensures { OnOk result (layer < rows.now.layers → RowsFit rows.now → AreAdded self.old self.new (layer_copies rows.now layer)) }
    {
        for row in 0..rows.height {
            let source_offset = rows.source.at(layer, row);
            let destination_offset = rows.destination.at(layer, row);
            self.add(BufferCopy {
                source_offset,
                destination_offset,
                size: rows.size,
            })?;
        }
        Ok(())
    }

    /// Adds the rows of a layer, which lie together, as one.
    fn add_whole_layer(&mut self, rows: &Rows, layer: u32) -> Result<(), AllocError>
        requires source { rows.now.source.row ≡ rows.now.size }
        requires destination { rows.now.destination.row ≡ rows.now.size }
        ensures { OnOk result (layer < rows.now.layers → RowsFit rows.now → AreAdded self.old self.new (layer_copies rows.now layer)) }
    {
        let source_offset = rows.source.at(layer, 0);
        let destination_offset = rows.destination.at(layer, 0);
        self.add(BufferCopy {
            source_offset,
            destination_offset,
            size: rows.size.saturating_mul(u64::from(rows.height)),
        })?;
        Ok(())
    }

    /// Adds a copy.
    fn add(&mut self, copy: BufferCopy) -> Result<(), AllocError>
        ensures { OnOk result (AreAdded self.old self.new (copy ∷ [])) }
    {
        match joined(&self.last, &copy) {
            Some(both) => {
                self.last = both;
                Ok(())
            }
            None => {
                let last = replace(&mut self.last, copy);
                self.done.push(last)?;
                Ok(())
            }
        }
    }

    /// All copies.
    pub fn into_list(self) -> Result<Vec<BufferCopy>, AllocError>
        ensures writes { IfOk result (λ list. (from to : ℕ → Byte) → flat_map (numbered_writes from to) list.items ≡ gathered self from to) }
        ensures within { IfOk result (λ list. (s d : ℕ) → AllLieWithin s d self → All (LiesWithin s d) list.items) }
    {
        let Copies { mut done, last } = self;
        if last.size > 0 {
            done.push(last)?;
        }
        Ok(done)
    }
}

/// Two copies as one, where the second begins in both places where the first ends.
fn joined(first: &BufferCopy, second: &BufferCopy) -> Option<BufferCopy>
    ensures writes { IfSome result (λ both. (from to : ℕ → Byte) → numbered_writes from to both ≡ numbered_writes from to first.now ++ numbered_writes from to second.now) }
    ensures within { IfSome result (λ both. (s d : ℕ) → LiesWithin s d first.now → LiesWithin s d second.now → LiesWithin s d both) }
{
    if first.size == 0 {
        return Some(*second);
    }
    if !follows(first, second) {
        return None;
    }
    let size = first.size.checked_add(second.size)?;
    Some(BufferCopy { size, ..*first })
}

/// Whether a copy begins where another one ends, both where they are read and where they are
/// written.
fn follows(first: &BufferCopy, second: &BufferCopy) -> bool
    ensures { IsTrue result ↔ ((first.now.source_offset + first.now.size ≡ second.now.source_offset) × (first.now.destination_offset + first.now.size ≡ second.now.destination_offset)) }
{
    second.source_offset >= first.source_offset
        && second.source_offset - first.source_offset == first.size
        && second.destination_offset >= first.destination_offset
        && second.destination_offset - first.destination_offset == first.size
}

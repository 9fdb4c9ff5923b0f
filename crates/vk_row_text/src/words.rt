ghost use Rattle.std.specs.Prelude.{◌≡◌, [], map};
ghost use Rattle.vk_row_text.specs.declared.names.RowName.TheVariants.{OfEntry};
ghost use Rattle.vk_row_text.specs.Words.{call_words, row_words};

use crate::names::{EntryName, RowName};
use std::alloc::Global;
use vk_model::{
    Accesses, Format, Kind, Layout, Length, Place, PoolKind, Sharing, Stages, SubresourceRange,
    Usage,
};

/// A word of a row.
#[derive(Clone, Copy)]
pub enum Word {
    /// A number, in decimal.
    Number(u64),
    /// A number in hex.
    Hex(u32),
    /// A number of bytes, or that all to the end are meant.
    Bytes(Length),
    /// An image layout.
    Layout(Layout),
    /// A queue family of an ownership transfer.
    Family(u32),
    /// What a resource may be used for.
    Usage(Usage),
    /// Pipeline stages.
    Stages(Stages),
    /// Accesses.
    Accesses(Accesses),
    /// A place of a resource.
    Place(Place),
    /// How the blocks of a pool are placed.
    Algorithm(PoolKind),
    /// Who owns a resource.
    Sharing(Sharing),
    /// A tiling.
    Tiling(Kind),
    /// A texel format.
    Format(Format),
    /// Levels and layers of an image.
    Range(SubresourceRange),
}

/// A name with words.
#[derive(Drop)]
pub struct Call {
    /// The name.
    pub name: RowName,
    /// The words, in their order.
    pub words: Vec<Word>,
}

/// A row: a name with words, and its items, which stand on lines of their own.
#[derive(Drop)]
pub struct Row {
    /// The name with its words.
    pub call: Call,
    /// The items, in their order.
    pub items: Vec<Call>,
}

/// A row with items.
pub fn row_of(name: RowName, words: Vec<Word>, items: Vec<Call>) -> Row
    ensures { row_words result ≡ ((name, words.items), map call_words items.items) }
{
    Row {
        call: Call { name, words },
        items,
    }
}

/// A row of an entry, without items.
pub fn plain_row(alloc: Global, name: EntryName, words: Vec<Word>) -> Row
    ensures { row_words result ≡ ((OfEntry name, words.items), []) }
{
    row_of(RowName::OfEntry(name), words, Vec::new(alloc))
}

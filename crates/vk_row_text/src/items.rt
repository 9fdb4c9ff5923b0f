ghost use Rattle.std.specs.Prelude.{◌≡◌, IfOk, map};
ghost use Rattle.vk_row_text.specs.declared.names.RowName.TheVariants.{OfItem};
ghost use Rattle.vk_row_text.specs.Words.{call_words, CallWords};

use crate::names::{ItemName, RowName};
use crate::words::{Call, Word};
use std::alloc::{AllocError, Global};

/// What is written as an item of a row.
pub trait Item {
    /// The name and the words that it has there.
    ghost item: { Self → CallWords };

    /// The item.
    fn item(&self, alloc: Global) -> Result<Call, AllocError>
        ensures { IfOk result (λ call. call_words call ≡ item self.now) };
}

/// The items of a row.
pub fn items_of<T: Item>(alloc: Global, values: &[T]) -> Result<Vec<Call>, AllocError>
    ensures { IfOk result (λ items. map call_words items.items ≡ map T.item values.now) }
{
    let mut items = Vec::new(alloc);
    for value in values {
        items.push(value.item(alloc)?)?;
    }
    Ok(items)
}

/// An item with these words.
pub fn call_of(name: ItemName, words: Vec<Word>) -> Call
    ensures { call_words result ≡ (OfItem name, words.items) }
{
    Call {
        name: RowName::OfItem(name),
        words,
    }
}

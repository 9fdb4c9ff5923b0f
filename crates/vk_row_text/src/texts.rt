ghost use Rattle.std.specs.Prelude.{◌≡◌, ◌++◌, OnOk, string_bytes, codes, decimal};
ghost use Rattle.std.specs.List.{flat_map};
ghost use Rattle.vk_words.specs.MaskText.{mask_text};
ghost use Rattle.vk_row_text.specs.Texts as spec;
ghost use Rattle.vk_row_text.specs.Words.{call_words, row_words};

use crate::words::{Call, Row, Word};
use std::alloc::AllocError;
use vk_model::{Format, Kind, Layout, Length, Place, PoolKind, Sharing, SubresourceRange};
use vk_words::push_mask;

/// Adds a row with its items.
pub fn push_row(out: &mut String, row: &Row) -> Result<(), AllocError>
    ensures { OnOk result (string_bytes out.new ≡ string_bytes out.old ++ spec.row_text (row_words row.now)) }
{
    push_call(out, &row.call)?;
    push_items(out, row.items.as_slice())?;
    Ok(())
}

/// Adds items.
fn push_items(out: &mut String, items: &[Call]) -> Result<(), AllocError>
    ensures { OnOk result (string_bytes out.new
        ≡ string_bytes out.old ++ flat_map (λ i. spec.item_text (call_words i)) items.now) }
{
    for item in items {
        push_item(out, item)?;
    }
    Ok(())
}

/// Adds an item, on a line of its own.
fn push_item(out: &mut String, item: &Call) -> Result<(), AllocError>
    ensures { OnOk result (string_bytes out.new ≡ string_bytes out.old ++ spec.item_text (call_words item.now)) }
{
    out.push_str("\n            ")?;
    push_call(out, item)
}

/// Adds a name with its words.
pub fn push_call(out: &mut String, call: &Call) -> Result<(), AllocError>
    ensures { OnOk result (string_bytes out.new ≡ string_bytes out.old ++ spec.call_text (call_words call.now)) }
{
    out.push_str(call.name.text())?;
    out.push_str("(")?;
    push_words(out, call.words.as_slice())?;
    out.push_str(")")
}

/// Adds words with commas between.
fn push_words(out: &mut String, words: &[Word]) -> Result<(), AllocError>
    ensures { OnOk result (string_bytes out.new ≡ string_bytes out.old ++ spec.words_text words.now) }
{
    match words.split_first() {
        Some((first, others)) => {
            push_word(out, *first)?;
            push_others(out, others)
        }
        None => Ok(()),
    }
}

/// Adds words, each behind a comma.
fn push_others(out: &mut String, words: &[Word]) -> Result<(), AllocError>
    ensures { OnOk result (string_bytes out.new
        ≡ string_bytes out.old ++ flat_map (λ v. codes ", " ++ spec.word_text v) words.now) }
{
    for word in words {
        out.push_str(", ")?;
        push_word(out, *word)?;
    }
    Ok(())
}

/// Adds a word.
fn push_word(out: &mut String, word: Word) -> Result<(), AllocError>
    ensures { OnOk result (string_bytes out.new ≡ string_bytes out.old ++ spec.word_text word) }
{
    match word {
        Word::Number(number) => push_number(out, number),
        Word::Hex(number) => write!(out, "0x{number:x}"),
        Word::Bytes(length) => push_length(out, length),
        Word::Layout(layout) => push_layout(out, layout),
        Word::Family(family) => push_family(out, family),
        Word::Usage(mask) => push_mask(out, &mask),
        Word::Stages(mask) => push_mask(out, &mask),
        Word::Accesses(mask) => push_mask(out, &mask),
        Word::Place(place) => push_place(out, place),
        Word::Algorithm(kind) => out.push_str(algorithm_name(kind)),
        Word::Sharing(sharing) => out.push_str(sharing_name(sharing)),
        Word::Tiling(tiling) => out.push_str(tiling_name(tiling)),
        Word::Format(format) => out.push_str(format_name(format)),
        Word::Range(range) => push_range(out, range),
    }
}

/// Adds a number, so that C takes it as one without a sign.
fn push_number(out: &mut String, number: u64) -> Result<(), AllocError>
    ensures { OnOk result (string_bytes out.new ≡ string_bytes out.old ++ spec.number_text number) }
{
    write!(out, "{number}")?;
    if number < 9_223_372_036_854_775_808 {
        return Ok(());
    }
    out.push_str("u")
}

/// Adds a number of bytes, or that all to the end are meant.
fn push_length(out: &mut String, length: Length) -> Result<(), AllocError>
    ensures { OnOk result (string_bytes out.new ≡ string_bytes out.old ++ spec.length_text length) }
{
    match length {
        Length::Bytes(bytes) => push_number(out, bytes),
        Length::Whole => out.push_str("WHOLE"),
    }
}

/// Adds the name of a layout, or its number where no transfer has to do with it.
fn push_layout(out: &mut String, layout: Layout) -> Result<(), AllocError>
    ensures { OnOk result (string_bytes out.new ≡ string_bytes out.old ++ spec.layout_text layout) }
{
    match layout.code() {
        0 => out.push_str("UNDEFINED"),
        1 => out.push_str("GENERAL"),
        6 => out.push_str("TRANSFER_SRC_OPTIMAL"),
        7 => out.push_str("TRANSFER_DST_OPTIMAL"),
        code => write!(out, "{code}"),
    }
}

/// Adds a queue family of an ownership transfer.
fn push_family(out: &mut String, family: u32) -> Result<(), AllocError>
    ensures { OnOk result (string_bytes out.new ≡ string_bytes out.old ++ spec.family_text family) }
{
    if family == u32::MAX {
        out.push_str("IGNORED")
    } else {
        write!(out, "{family}")
    }
}

/// Adds a place of a resource.
fn push_place(out: &mut String, place: Place) -> Result<(), AllocError>
    ensures { OnOk result (string_bytes out.new ≡ string_bytes out.old ++ spec.place_text place) }
{
    match place {
        Place::Dedicated { memory_type } => {
            out.push_str("DEDICATED(")?;
            push_number(out, memory_type as u64)?;
        }
        Place::Memory { memory, offset } => {
            out.push_str("IN_MEMORY(")?;
            push_number(out, memory as u64)?;
            out.push_str(", ")?;
            push_number(out, offset)?;
        }
        Place::Pool { pool } => {
            out.push_str("IN_POOL(")?;
            push_number(out, pool as u64)?;
        }
        Place::PoolUpper { pool } => {
            out.push_str("IN_POOL_UPPER(")?;
            push_number(out, pool as u64)?;
        }
    }
    out.push_str(")")
}

/// Adds levels and layers.
fn push_range(out: &mut String, range: SubresourceRange) -> Result<(), AllocError>
    ensures { OnOk result (string_bytes out.new ≡ string_bytes out.old ++ spec.range_text range) }
{
    out.push_str("RANGE(")?;
    push_number(out, range.first_level as u64)?;
    out.push_str(", ")?;
    push_number(out, range.levels as u64)?;
    out.push_str(", ")?;
    push_number(out, range.first_layer as u64)?;
    out.push_str(", ")?;
    push_number(out, range.layers as u64)?;
    out.push_str(")")
}

/// How the blocks of a pool are placed.
fn algorithm_name(kind: PoolKind) -> &'static str
    ensures { result.now ≡ spec.algorithm_text kind }
{
    match kind {
        PoolKind::Tlsf => "TLSF",
        PoolKind::Linear => "LINEAR",
    }
}

/// Who owns a resource.
fn sharing_name(sharing: Sharing) -> &'static str
    ensures { result.now ≡ spec.sharing_text sharing }
{
    match sharing {
        Sharing::Exclusive => "EXCLUSIVE",
        Sharing::Concurrent => "CONCURRENT",
    }
}

/// A tiling.
fn tiling_name(tiling: Kind) -> &'static str
    ensures { result.now ≡ spec.tiling_text tiling }
{
    match tiling {
        Kind::Linear => "LINEAR",
        Kind::Optimal => "OPTIMAL",
    }
}

/// A texel format.
fn format_name(format: Format) -> &'static str
    ensures { result.now ≡ spec.format_text format }
{
    match format {
        Format::R8Uint => "R8_UINT",
        Format::R8G8Uint => "R8G8_UINT",
        Format::R8G8B8A8Uint => "R8G8B8A8_UINT",
        Format::R16Uint => "R16_UINT",
        Format::R32Uint => "R32_UINT",
        Format::R32G32Uint => "R32G32_UINT",
        Format::R32G32B32A32Uint => "R32G32B32A32_UINT",
    }
}

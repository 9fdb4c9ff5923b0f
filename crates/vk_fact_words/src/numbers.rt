use crate::items::{push_bytes, push_item};
use std::alloc::AllocError;
use vk_rules::{
    AlignUnit, AlignedNumber, Amount, Axis, Misaligned, OtherTexels, Outside, PastBytes,
    PointNumber, Quantity, RangeMeasure, RowSide, SizeMeasure,
};
use vk_words::push_count;

/// Adds where bytes end and the size of their buffer, or a row and its extent.
pub fn push_range(out: &mut String, measure: RangeMeasure) -> Result<(), AllocError> {
    match measure {
        RangeMeasure::Bytes(past) => push_past(out, past),
        RangeMeasure::Rows(rows) => {
            let region = rows.region;
            let buffer = rows.buffer;
            let end = rows.end;
            let size = rows.size;
            write!(
                out,
                "region {region} ends at byte {end} of buffer {buffer}, which has {size}"
            )
        }
        RangeMeasure::Short(short) => {
            let region = short.region;
            let length = short.length;
            let extent = short.extent;
            match short.side {
                RowSide::Row => write!(
                    out,
                    "region {region}: row length {length}, and {extent} texels in a row"
                ),
                RowSide::Layer => write!(
                    out,
                    "region {region}: image height {length}, and {extent} rows"
                ),
            }
        }
    }
}

fn push_past(out: &mut String, past: PastBytes) -> Result<(), AllocError> {
    push_item(out, past.item)?;
    push_bytes(out, past.offset, past.bytes)?;
    let buffer = past.buffer;
    let size = past.size;
    write!(out, " of buffer {buffer}, which has {size}")
}

/// Adds numbers of levels, layers or texels, and how many the image has.
pub fn push_outside(out: &mut String, outside: Outside) -> Result<(), AllocError> {
    push_item(out, outside.item)?;
    let (one, several) = match outside.axis {
        Axis::Levels => ("level", "levels"),
        Axis::Layers => ("layer", "layers"),
        Axis::Columns => ("column of texels", "columns of texels"),
        Axis::Rows => ("row of texels", "rows of texels"),
    };
    push_count(out, "", outside.count as u64, one, several)?;
    let image = outside.image;
    let first = outside.first;
    let limit = outside.limit;
    write!(
        out,
        " from {first} on of image {image}, which has {limit} there"
    )
}

/// Adds a number, and its least and greatest value.
pub fn push_size(out: &mut String, measure: SizeMeasure) -> Result<(), AllocError> {
    match measure {
        SizeMeasure::Amount(amount) => push_amount(out, amount),
        SizeMeasure::Block(bytes) => {
            push_count(out, "blocks of ", bytes, "byte", "bytes")?;
            out.push_str("; a multiple of 1024 is wanted, up to 16777216")
        }
    }
}

fn push_amount(out: &mut String, amount: Amount) -> Result<(), AllocError> {
    push_item(out, amount.item)?;
    let (one, several) = match amount.quantity {
        Quantity::Bytes => ("byte", "bytes"),
        Quantity::BlockBytes => ("byte of a block", "bytes of a block"),
        Quantity::Blocks => ("block", "blocks"),
        Quantity::Columns => ("texel in a row", "texels in a row"),
        Quantity::Rows => ("row", "rows"),
        Quantity::Levels => ("level", "levels"),
        Quantity::Layers => ("layer", "layers"),
        Quantity::Items => ("item", "items"),
    };
    push_count(out, "", amount.value, one, several)?;
    let least = amount.least;
    write!(out, "; at least {least}")?;
    match amount.most {
        Some(most) => write!(out, ", at most {most}"),
        None => Ok(()),
    }
}

/// Adds a number, and of what it must be a multiple.
pub fn push_align(out: &mut String, misaligned: Misaligned) -> Result<(), AllocError> {
    push_item(out, misaligned.item)?;
    let name = match misaligned.number {
        AlignedNumber::Offset => "offset",
        AlignedNumber::Bytes => "size",
    };
    let unit = match misaligned.unit {
        AlignUnit::Word => "a word",
        AlignUnit::Texel => "a texel",
    };
    let value = misaligned.value;
    let multiple = misaligned.multiple;
    write!(
        out,
        "{name} {value}; a multiple of {multiple} is wanted, the bytes of {unit}"
    )
}

/// Adds the sizes of two texels.
pub fn push_format(out: &mut String, other: OtherTexels) -> Result<(), AllocError> {
    let source = other.source;
    write!(out, "texels of image {source}")?;
    push_count(out, " have ", other.source_texel as u64, "byte", "bytes")?;
    let destination = other.destination;
    let destination_texel = other.destination_texel;
    write!(
        out,
        ", and those of image {destination} {destination_texel}"
    )
}

/// Adds the number of a point, and how many a trace may have.
pub fn push_limit(out: &mut String, point: PointNumber) -> Result<(), AllocError> {
    let number = point.number;
    let most = point.most;
    write!(
        out,
        "point {number} of the trace, which may have {most} of them"
    )
}

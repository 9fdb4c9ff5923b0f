use crate::values::Values;
use std::alloc::AllocError;
use vk_findings::Measure;
use vk_model::{PoolKind, Usage};
use vk_rules::{
    AlignCause, AlignUnit, AlignedNumber, Amount, Axis, BadMasks, BadType, MaskFault, Misaligned,
    Misplaced, OtherTexels, Outside, OverHalf, PartTransfer, PastMemory, PoolAsked, PoolUse,
    Purpose, Quantity, QueueCommand, QueueUse, RangeMeasure, RowSide, Side, SizeMeasure, UsageLack,
    UsageMeasure,
};
use vk_words::tiling_name;

/// Adds the numbers, masks and kinds that a rule compares.
pub fn push_measured(out: &mut Values<'_>, measure: Measure) -> Result<(), AllocError> {
    match measure {
        Measure::Range(range) => push_range(out, range),
        Measure::Stage(masks) => push_masks(out, masks),
        Measure::Usage(UsageMeasure::Made(usage)) => out.mask("usage", &usage),
        Measure::Usage(UsageMeasure::Lacks(lack)) => push_lack(out, lack),
        Measure::Subresource(outside) => push_outside(out, outside),
        Measure::BindRange(past) => push_past_memory(out, past),
        Measure::BindAlign(misplaced) => push_misplaced(out, misplaced),
        Measure::MemoryType(bad) => push_type(out, bad),
        Measure::MemorySize(bad) => {
            out.wide("need", bad.need)?;
            out.number("least", 1)?;
            out.number("most", 67_108_864)
        }
        Measure::PoolSize(over) => push_over_half(out, over),
        Measure::HostVisible(hidden) => {
            out.number("buffer", u64::from(hidden.buffer))?;
            out.number("memory_type", u64::from(hidden.memory_type))
        }
        Measure::Size(size) => push_size(out, size),
        Measure::Align(misaligned) => push_misaligned(out, misaligned),
        Measure::Format(other) => push_texels(out, other),
        Measure::Queue(number) => {
            out.number("queue", u64::from(number.queue))?;
            out.number("most", 3)
        }
        Measure::QueueKind(asked) => push_queue_use(out, asked),
        Measure::OwnerWhole(part) => push_part(out, part),
        Measure::PoolKind(asked) => push_pool_use(out, asked),
        Measure::Limit(point) => {
            out.number("number", point.number as u64)?;
            out.number("most", point.most as u64)
        }
    }
}

fn push_range(out: &mut Values<'_>, range: RangeMeasure) -> Result<(), AllocError> {
    match range {
        RangeMeasure::Bytes(past) => {
            out.item(past.item)?;
            out.number("buffer", u64::from(past.buffer))?;
            out.number("offset", past.offset)?;
            out.length("bytes", past.bytes)?;
            out.number("size", past.size)
        }
        RangeMeasure::Rows(rows) => {
            out.number("region", rows.region as u64)?;
            out.number("buffer", u64::from(rows.buffer))?;
            out.wide("end", rows.end)?;
            out.number("size", rows.size)
        }
        RangeMeasure::Short(short) => {
            let (given, wanted) = match short.side {
                RowSide::Row => ("row_length", "width"),
                RowSide::Layer => ("image_height", "height"),
            };
            out.number("region", short.region as u64)?;
            out.number(given, u64::from(short.length))?;
            out.number(wanted, u64::from(short.extent))
        }
    }
}

fn push_masks(out: &mut Values<'_>, masks: BadMasks) -> Result<(), AllocError> {
    out.item(masks.item)?;
    out.word(
        "scope",
        match masks.side {
            Side::Source => "source",
            Side::Destination => "destination",
            Side::Submit => "batch",
        },
    )?;
    out.mask("stages", &masks.stages)?;
    match masks.side {
        Side::Submit => {}
        Side::Source | Side::Destination => out.mask("accesses", &masks.accesses)?,
    }
    match masks.fault {
        MaskFault::UnknownStage => out.word("fault", "unknown_stage"),
        MaskFault::UnknownAccess => out.word("fault", "unknown_access"),
        MaskFault::NoTransfer(accesses) => {
            out.word("fault", "needs_transfer")?;
            out.mask("needing", &accesses)
        }
        MaskFault::NoHost(accesses) => {
            out.word("fault", "needs_host")?;
            out.mask("needing", &accesses)
        }
        MaskFault::HostStage => out.word("fault", "host"),
    }
}

fn push_lack(out: &mut Values<'_>, lack: UsageLack) -> Result<(), AllocError> {
    match lack.purpose {
        Purpose::Source => out.word("use", "source")?,
        Purpose::Destination => out.word("use", "destination")?,
        Purpose::Layout(index) => {
            out.word("use", "layout")?;
            out.number("element", index as u64)?;
        }
    }
    out.number("resource", u64::from(lack.resource))?;
    match lack.usage {
        Some(usage) => out.mask("usage", &usage)?,
        None => out.mask("usage", &Usage(0))?,
    }
    out.mask("needed", &lack.needed)
}

fn push_outside(out: &mut Values<'_>, outside: Outside) -> Result<(), AllocError> {
    out.item(outside.item)?;
    out.number("image", u64::from(outside.image))?;
    out.word(
        "axis",
        match outside.axis {
            Axis::Levels => "levels",
            Axis::Layers => "layers",
            Axis::Columns => "columns",
            Axis::Rows => "rows",
        },
    )?;
    out.number("first", u64::from(outside.first))?;
    out.number("count", u64::from(outside.count))?;
    out.number("limit", u64::from(outside.limit))
}

fn push_past_memory(out: &mut Values<'_>, past: PastMemory) -> Result<(), AllocError> {
    out.number("memory", u64::from(past.memory))?;
    out.number("offset", past.offset)?;
    out.wide("need", past.need)?;
    out.number("size", past.size)
}

fn push_misplaced(out: &mut Values<'_>, misplaced: Misplaced) -> Result<(), AllocError> {
    out.number("memory", u64::from(misplaced.memory))?;
    out.number("offset", misplaced.offset)?;
    out.number("multiple_of", misplaced.multiple)?;
    out.word(
        "unit",
        match misplaced.cause {
            AlignCause::Resource => "resource",
            AlignCause::Atom => "atom",
        },
    )
}

fn push_type(out: &mut Values<'_>, bad: BadType) -> Result<(), AllocError> {
    out.number("memory_type", u64::from(bad.memory_type))?;
    match bad.kind {
        Some(kind) => out.word("tiling", tiling_name(kind)),
        None => Ok(()),
    }
}

fn push_over_half(out: &mut Values<'_>, over: OverHalf) -> Result<(), AllocError> {
    out.number("pool", u64::from(over.pool))?;
    out.wide("need", over.need)?;
    out.number("block_size", over.block_size)
}

fn push_size(out: &mut Values<'_>, size: SizeMeasure) -> Result<(), AllocError> {
    match size {
        SizeMeasure::Amount(amount) => push_amount(out, amount),
        SizeMeasure::Block(bytes) => {
            out.word("counted", "block_bytes")?;
            out.number("value", bytes)?;
            out.number("multiple_of", 1_024)?;
            out.number("most", 16_777_216)
        }
    }
}

fn push_amount(out: &mut Values<'_>, amount: Amount) -> Result<(), AllocError> {
    out.item(amount.item)?;
    out.word(
        "counted",
        match amount.quantity {
            Quantity::Bytes => "bytes",
            Quantity::BlockBytes => "block_bytes",
            Quantity::Blocks => "blocks",
            Quantity::Columns => "columns",
            Quantity::Rows => "rows",
            Quantity::Levels => "levels",
            Quantity::Layers => "layers",
            Quantity::Items => "items",
        },
    )?;
    out.number("value", amount.value)?;
    out.number("least", amount.least)?;
    match amount.most {
        Some(most) => out.number("most", most),
        None => Ok(()),
    }
}

fn push_misaligned(out: &mut Values<'_>, misaligned: Misaligned) -> Result<(), AllocError> {
    out.item(misaligned.item)?;
    let name = match misaligned.number {
        AlignedNumber::Offset => "offset",
        AlignedNumber::Bytes => "bytes",
    };
    out.number(name, misaligned.value)?;
    out.number("multiple_of", misaligned.multiple)?;
    out.word(
        "unit",
        match misaligned.unit {
            AlignUnit::Word => "word",
            AlignUnit::Texel => "texel",
        },
    )
}

fn push_texels(out: &mut Values<'_>, other: OtherTexels) -> Result<(), AllocError> {
    out.number("source", u64::from(other.source))?;
    out.number("source_texel", u64::from(other.source_texel))?;
    out.number("destination", u64::from(other.destination))?;
    out.number("destination_texel", u64::from(other.destination_texel))
}

fn push_queue_use(out: &mut Values<'_>, asked: QueueUse) -> Result<(), AllocError> {
    out.number("queue", u64::from(asked.queue))?;
    out.word(
        "command",
        match asked.command {
            QueueCommand::Clear => "clear",
            QueueCommand::Set => "set",
            QueueCommand::Await => "await",
        },
    )
}

fn push_part(out: &mut Values<'_>, part: PartTransfer) -> Result<(), AllocError> {
    match part {
        PartTransfer::Bytes(bytes) => {
            out.number("element", bytes.element as u64)?;
            out.number("buffer", u64::from(bytes.buffer))?;
            out.number("offset", bytes.offset)?;
            out.length("bytes", bytes.bytes)?;
            out.number("size", bytes.size)
        }
        PartTransfer::Subresources(part) => {
            out.number("element", part.element as u64)?;
            out.number("image", u64::from(part.image))?;
            out.number("first_level", u64::from(part.range.first_level))?;
            out.number("levels", u64::from(part.range.levels))?;
            out.number("first_layer", u64::from(part.range.first_layer))?;
            out.number("layers", u64::from(part.range.layers))?;
            out.number("all_levels", u64::from(part.levels))?;
            out.number("all_layers", u64::from(part.layers))
        }
    }
}

fn push_pool_use(out: &mut Values<'_>, asked: PoolUse) -> Result<(), AllocError> {
    out.number("pool", u64::from(asked.pool))?;
    out.word(
        "algorithm",
        match asked.kind {
            PoolKind::Tlsf => "tlsf",
            PoolKind::Linear => "linear",
        },
    )?;
    out.number("block_limit", u64::from(asked.block_limit))?;
    out.word(
        "asked",
        match asked.asked {
            PoolAsked::Defragments => "defragmentation",
            PoolAsked::UpperEnd => "upper_end",
        },
    )
}

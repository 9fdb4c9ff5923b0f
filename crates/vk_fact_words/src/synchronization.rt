use crate::items::{push_bytes, push_item};
use std::alloc::AllocError;
use vk_model::SubresourceRange;
use vk_rules::{
    BadMasks, MaskFault, PartBytes, PartSubresources, PartTransfer, QueueCommand, QueueNumber,
    QueueUse, Side,
};
use vk_words::{push_count, push_mask};

/// Adds masks, and what is wrong with them.
pub fn push_stage(out: &mut String, masks: BadMasks) -> Result<(), AllocError> {
    push_item(out, masks.item)?;
    match masks.side {
        Side::Source => out.push_str("source: ")?,
        Side::Destination => out.push_str("destination: ")?,
        Side::Submit => {}
    }
    out.push_str("stages ")?;
    push_mask(out, &masks.stages)?;
    match masks.side {
        Side::Submit => {}
        Side::Source | Side::Destination => {
            out.push_str(", accesses ")?;
            push_mask(out, &masks.accesses)?;
        }
    }
    out.push_str("; ")?;
    push_mask_fault(out, masks.fault)
}

fn push_mask_fault(out: &mut String, fault: MaskFault) -> Result<(), AllocError> {
    match fault {
        MaskFault::UnknownStage => {
            out.push_str("only TRANSFER, HOST and ALL_COMMANDS are known as stages")
        }
        MaskFault::UnknownAccess => {
            out.push_str("only the accesses of transfers, of the host and of MEMORY are known")
        }
        MaskFault::NoTransfer(accesses) => {
            push_mask(out, &accesses)?;
            out.push_str(" needs the stage TRANSFER or ALL_COMMANDS")
        }
        MaskFault::NoHost(accesses) => {
            push_mask(out, &accesses)?;
            out.push_str(" needs the stage HOST")
        }
        MaskFault::HostStage => out.push_str("HOST can't be a stage here"),
    }
}

/// Adds the number of a queue.
pub fn push_queue(out: &mut String, number: QueueNumber) -> Result<(), AllocError> {
    let queue = number.queue;
    write!(out, "queue {queue}; there are 0 to 3")
}

/// Adds a queue, and the command that it doesn't have.
pub fn push_queue_kind(out: &mut String, asked: QueueUse) -> Result<(), AllocError> {
    let queue = asked.queue;
    let command = match asked.command {
        QueueCommand::Clear => "a clear",
        QueueCommand::Set => "a set",
        QueueCommand::Await => "an await",
    };
    write!(out, "{command} on queue {queue}; queues 0 and 1 have it")
}

/// Adds what is transferred, and the whole of the resource.
pub fn push_owner_whole(out: &mut String, part: PartTransfer) -> Result<(), AllocError> {
    match part {
        PartTransfer::Bytes(bytes) => push_part_bytes(out, bytes),
        PartTransfer::Subresources(subresources) => push_part_subresources(out, subresources),
    }
}

fn push_part_bytes(out: &mut String, part: PartBytes) -> Result<(), AllocError> {
    let element = part.element;
    write!(out, "element {element}: ")?;
    push_bytes(out, part.offset, part.bytes)?;
    let buffer = part.buffer;
    let size = part.size;
    write!(out, " of buffer {buffer}, which has {size}")
}

fn push_part_subresources(out: &mut String, part: PartSubresources) -> Result<(), AllocError> {
    let element = part.element;
    let SubresourceRange {
        first_level,
        levels,
        first_layer,
        layers,
    } = part.range;
    write!(out, "element {element}")?;
    push_count(out, ": ", levels as u64, "level", "levels")?;
    write!(out, " from {first_level} on")?;
    push_count(out, " and ", layers as u64, "layer", "layers")?;
    let image = part.image;
    let all_levels = part.levels;
    let all_layers = part.layers;
    write!(
        out,
        " from {first_layer} on of image {image}, which has {all_levels} and {all_layers}"
    )
}

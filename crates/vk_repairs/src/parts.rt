use vk_model::{Batch, BufferImageCopy, Cmd, Entry, ImageCopy};

/// How many parts the commands of a trace have that judging compares with each other: rows of copies
/// that read or write an image, regions of other copies, ranges of clears, and elements. It is
/// 2^64 - 1 where there are more.
pub fn parts_in(trace: &[Entry]) -> u64 {
    let mut sum: u64 = 0;
    for entry in trace {
        sum = sum.saturating_add(parts_of_entry(entry));
    }
    sum
}

fn parts_of_entry(entry: &Entry) -> u64 {
    match entry {
        Entry::Submit { batches, .. } => parts_of_batches(batches.as_slice()),
        _ => 0,
    }
}

fn parts_of_batches(batches: &[Batch]) -> u64 {
    let mut sum: u64 = 0;
    for batch in batches {
        for command in batch.commands.as_slice() {
            sum = sum.saturating_add(parts_of_command(command));
        }
    }
    sum
}

fn parts_of_command(command: &Cmd) -> u64 {
    match command {
        Cmd::Copy { regions, .. } => regions.len() as u64,
        Cmd::Clear { ranges, .. } => ranges.len() as u64,
        Cmd::CopyIn { regions, .. } | Cmd::CopyOut { regions, .. } => rows_in(regions.as_slice()),
        Cmd::CopyImage { regions, .. } => image_rows_in(regions.as_slice()),
        Cmd::Barrier { elements } => elements.len() as u64,
        Cmd::Set { elements, .. } | Cmd::Await { elements, .. } => elements.len() as u64,
        Cmd::Fill { .. } | Cmd::Update { .. } => 0,
    }
}

fn rows_in(regions: &[BufferImageCopy]) -> u64 {
    let mut sum: u64 = 0;
    for region in regions {
        sum = sum.saturating_add(u64::from(region.height) * u64::from(region.layers));
    }
    sum
}

fn image_rows_in(regions: &[ImageCopy]) -> u64 {
    let mut sum: u64 = 0;
    for region in regions {
        sum = sum.saturating_add(u64::from(region.height) * u64::from(region.layers));
    }
    sum
}

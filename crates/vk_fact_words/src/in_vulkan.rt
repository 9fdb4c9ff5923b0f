//! What a point is in Vulkan: the calls by which it is made, and what Vulkan has that isn't judged.

use vk_model::{
    Accesses, At, Batch, Cmd, Dependency, Element, Entry, ImageElement, Layout, Rule, Stages, Usage,
};

/// The most bytes of a memory object (profile).
const MOST_BYTES: u64 = 67_108_864;

/// What Vulkan has and a trace can't say or isn't judged by, where that is what a rule refuses at a
/// point: then the point may be right in Vulkan. None where Vulkan refuses it as well.
pub fn right_in_vulkan(trace: &[Entry], at: At, rule: Rule) -> Option<&'static str> {
    match rule {
        Rule::Stage if has_other_masks(trace, at) => {
            Some("it has more stages and accesses than those that are judged here")
        }
        Rule::Usage if has_other_usage(trace, at) => {
            Some("it has more usages than those that are judged here")
        }
        Rule::Layout if has_other_layout(trace, at) => {
            Some("it has more layouts than the four that are judged here")
        }
        Rule::OwnerWhole => Some("it transfers parts of a resource, too"),
        Rule::Aliased => Some("it lets resources share memory, by its rules on aliasing"),
        Rule::LiveId if destroys_other(trace, at) => {
            Some("it destroys semaphores and events, too, which stay in a trace")
        }
        Rule::MemorySize if is_large(trace, at) => {
            Some("the limit of 67,108,864 bytes is one of this profile")
        }
        Rule::Limit => Some("the limit of 131,072 points is one of this profile"),
        _ => None,
    }
}

/// Whether a repair would take out what the point means: it names something of Vulkan that isn't judged.
pub fn is_unknown_here(trace: &[Entry], at: At, rule: Rule) -> bool {
    match rule {
        Rule::Stage | Rule::Usage | Rule::Layout | Rule::LiveId => {
            right_in_vulkan(trace, at, rule).is_some()
        }
        _ => false,
    }
}

// ---- masks

/// The stages that are judged.
const STAGES: u32 = Stages::TRANSFER.0 | Stages::HOST.0 | Stages::ALL_COMMANDS.0;

/// The accesses that are judged.
const ACCESSES: u32 = Accesses::TRANSFER_READ.0
    | Accesses::TRANSFER_WRITE.0
    | Accesses::HOST_READ.0
    | Accesses::HOST_WRITE.0
    | Accesses::MEMORY_READ.0
    | Accesses::MEMORY_WRITE.0;

/// The usages that are judged.
const USAGES: u32 = Usage::TRANSFER_SRC.0 | Usage::TRANSFER_DST.0;

/// Whether a command, a wait or a signal names a stage or an access that isn't judged.
fn has_other_masks(trace: &[Entry], at: At) -> bool {
    match at {
        At::Entry(_) => false,
        At::Command(entry, batch, place) => match command_at(trace, entry, batch, place) {
            Some(Cmd::Barrier { elements }) => has_other_element(elements.as_slice()),
            Some(Cmd::Set { elements, .. } | Cmd::Await { elements, .. }) => {
                has_other_dependency(elements.as_slice())
            }
            _ => false,
        },
        At::Wait(entry, batch, place) => match batch_at(trace, entry, batch) {
            Some(found) => has_other_stages(found, true, place),
            None => false,
        },
        At::Signal(entry, batch, place) => match batch_at(trace, entry, batch) {
            Some(found) => has_other_stages(found, false, place),
            None => false,
        },
    }
}

/// Whether a wait or a signal of a batch names a stage that isn't judged.
fn has_other_stages(batch: &Batch, is_wait: bool, place: usize) -> bool {
    let submits = if is_wait {
        batch.waits.as_slice()
    } else {
        batch.signals.as_slice()
    };
    match submits.get(place) {
        Some(submit) => submit.stages.0 & !STAGES != 0,
        None => false,
    }
}

/// Whether an element of a barrier names a stage or an access that isn't judged.
fn has_other_element(elements: &[Element]) -> bool {
    for element in elements {
        if has_other_scope(&dependency_of(element)) {
            return true;
        }
    }
    false
}

/// Whether an element of a set or an await does.
fn has_other_dependency(elements: &[Dependency]) -> bool {
    for element in elements {
        if has_other_scope(element) {
            return true;
        }
    }
    false
}

fn has_other_scope(dependency: &Dependency) -> bool {
    let stages = dependency.source_stages.0 | dependency.destination_stages.0;
    let accesses = dependency.source_accesses.0 | dependency.destination_accesses.0;
    stages & !STAGES != 0 || accesses & !ACCESSES != 0
}

fn dependency_of(element: &Element) -> Dependency {
    match element {
        Element::Memory(dependency) => *dependency,
        Element::Buffer(buffer) => buffer.dependency,
        Element::Image(image) => image.dependency,
    }
}

/// Whether an entry makes a resource with a usage that isn't judged.
fn has_other_usage(trace: &[Entry], at: At) -> bool {
    let At::Entry(number) = at else {
        return false;
    };
    match trace.get(number) {
        Some(Entry::Buffer { info, .. }) => info.usage.0 & !USAGES != 0,
        Some(Entry::Image { info, .. }) => info.usage.0 & !USAGES != 0,
        _ => false,
    }
}

// ---- layouts

/// Whether a command names a layout that isn't judged.
fn has_other_layout(trace: &[Entry], at: At) -> bool {
    let At::Command(entry, batch, place) = at else {
        return false;
    };
    match command_at(trace, entry, batch, place) {
        Some(Cmd::Barrier { elements }) => has_other_transition(elements.as_slice()),
        Some(
            Cmd::Clear { layout, .. } | Cmd::CopyIn { layout, .. } | Cmd::CopyOut { layout, .. },
        ) => is_other(*layout),
        Some(
            Cmd::CopyImage {
                source_layout,
                destination_layout,
                ..
            },
        ) => is_other(*source_layout) || is_other(*destination_layout),
        _ => false,
    }
}

/// Whether an element is a transition from or to a layout that isn't judged.
fn has_other_transition(elements: &[Element]) -> bool {
    for element in elements {
        if let Element::Image(
            ImageElement {
                old_layout,
                new_layout,
                ..
            },
        ) = element
        {
            if is_other(*old_layout) || is_other(*new_layout) {
                return true;
            }
        }
    }
    false
}

/// Whether a layout isn't judged.
fn is_other(layout: Layout) -> bool {
    layout != Layout::UNDEFINED
        && layout != Layout::GENERAL
        && layout != Layout::TRANSFER_SRC_OPTIMAL
        && layout != Layout::TRANSFER_DST_OPTIMAL
}

// ---- entries

/// Whether an entry destroys what is a semaphore or an event.
fn destroys_other(trace: &[Entry], at: At) -> bool {
    let At::Entry(number) = at else {
        return false;
    };
    match trace.get(number) {
        Some(Entry::Destroy { resource }) => is_synchronization(trace, *resource),
        _ => false,
    }
}

/// Whether an id is that of a semaphore or of an event.
fn is_synchronization(trace: &[Entry], id: u32) -> bool {
    for entry in trace {
        match entry {
            Entry::Semaphore { id: other, .. } | Entry::Event { id: other } if *other == id => {
                return true;
            }
            _ => {}
        }
    }
    false
}

/// Whether an entry makes a memory object or a buffer over the limit.
fn is_large(trace: &[Entry], at: At) -> bool {
    let At::Entry(number) = at else {
        return false;
    };
    match trace.get(number) {
        Some(Entry::Memory { info, .. }) => info.size > MOST_BYTES,
        Some(Entry::Buffer { info, .. }) => info.size > MOST_BYTES,
        _ => false,
    }
}

// ---- calls

/// The calls and structures of Vulkan by which a point is made, each with the hyphen that ends its
/// name in an identifier; none where there is no such point, or where it is the allocator's.
pub fn calls_of(trace: &[Entry], at: At) -> &'static [&'static str] {
    match at {
        At::Entry(number) => match trace.get(number) {
            Some(entry) => calls_of_entry(entry),
            None => &NONE,
        },
        At::Command(entry, batch, place) => match command_at(trace, entry, batch, place) {
            Some(command) => calls_of_command(command),
            None => &NONE,
        },
        At::Wait(_, _, _) | At::Signal(_, _, _) => &SUBMITS,
    }
}

static NONE: [&str; 0] = [];

static BUFFERS: [&str; 4] = [
    "VkBufferCreateInfo-",
    "vkBindBufferMemory-",
    "vkAllocateMemory-",
    "VkMemoryAllocateInfo-",
];

static IMAGES: [&str; 5] = [
    "VkImageCreateInfo-",
    "vkBindImageMemory-",
    "VkBindImageMemoryInfo-",
    "vkAllocateMemory-",
    "VkMemoryAllocateInfo-",
];

static MEMORY: [&str; 2] = ["vkAllocateMemory-", "VkMemoryAllocateInfo-"];

static FREES: [&str; 1] = ["vkFreeMemory-"];

static DESTROYS: [&str; 2] = ["vkDestroyBuffer-", "vkDestroyImage-"];

static MAPS: [&str; 1] = ["vkMapMemory-"];

static UNMAPS: [&str; 1] = ["vkUnmapMemory-"];

static RANGES: [&str; 1] = ["VkMappedMemoryRange-"];

static HOST_SIGNALS: [&str; 1] = ["VkSemaphoreSignalInfo-"];

static HOST_WAITS: [&str; 1] = ["VkSemaphoreWaitInfo-"];

static QUEUES: [&str; 2] = ["vkQueueSubmit2-", "vkGetDeviceQueue-"];

static SUBMITS: [&str; 3] = [
    "VkSemaphoreSubmitInfo-",
    "VkSubmitInfo2-",
    "vkQueueSubmit2-",
];

/// The calls by which an entry is made.
fn calls_of_entry(entry: &Entry) -> &'static [&'static str] {
    match entry {
        Entry::Buffer { .. } => &BUFFERS,
        Entry::Image { .. } => &IMAGES,
        Entry::Memory { .. } => &MEMORY,
        Entry::Free { .. } => &FREES,
        Entry::Destroy { .. } => &DESTROYS,
        Entry::Map { .. } => &MAPS,
        Entry::Unmap { .. } => &UNMAPS,
        Entry::Flush { .. } | Entry::Invalidate { .. } => &RANGES,
        Entry::Signal { .. } => &HOST_SIGNALS,
        Entry::Wait { .. } => &HOST_WAITS,
        Entry::Submit { .. } => &QUEUES,
        _ => &NONE,
    }
}

static FILLS: [&str; 1] = ["vkCmdFillBuffer-"];

static UPDATES: [&str; 1] = ["vkCmdUpdateBuffer-"];

static COPIES: [&str; 2] = ["vkCmdCopyBuffer-", "VkBufferCopy-"];

static CLEARS: [&str; 3] = [
    "vkCmdClearColorImage-",
    "VkImageSubresourceRange-",
    "vkQueueSubmit2-commandBuffer-",
];

static COPIES_IN: [&str; 3] = [
    "vkCmdCopyBufferToImage-",
    "VkBufferImageCopy-",
    "VkImageSubresourceLayers-",
];

static COPIES_OUT: [&str; 3] = [
    "vkCmdCopyImageToBuffer-",
    "VkBufferImageCopy-",
    "VkImageSubresourceLayers-",
];

static IMAGE_COPIES: [&str; 3] = [
    "vkCmdCopyImage-",
    "VkImageCopy-",
    "VkImageSubresourceLayers-",
];

static BARRIERS: [&str; 5] = [
    "vkCmdPipelineBarrier2-",
    "VkMemoryBarrier2-",
    "VkBufferMemoryBarrier2-",
    "VkImageMemoryBarrier2-",
    "VkImageSubresourceRange-",
];

static SETS: [&str; 4] = [
    "vkCmdSetEvent2-",
    "VkMemoryBarrier2-",
    "VkBufferMemoryBarrier2-",
    "VkImageMemoryBarrier2-",
];

static AWAITS: [&str; 4] = [
    "vkCmdWaitEvents2-",
    "VkMemoryBarrier2-",
    "VkBufferMemoryBarrier2-",
    "VkImageMemoryBarrier2-",
];

/// The calls by which a command is recorded.
fn calls_of_command(command: &Cmd) -> &'static [&'static str] {
    match command {
        Cmd::Fill { .. } => &FILLS,
        Cmd::Update { .. } => &UPDATES,
        Cmd::Copy { .. } => &COPIES,
        Cmd::Clear { .. } => &CLEARS,
        Cmd::CopyIn { .. } => &COPIES_IN,
        Cmd::CopyOut { .. } => &COPIES_OUT,
        Cmd::CopyImage { .. } => &IMAGE_COPIES,
        Cmd::Barrier { .. } => &BARRIERS,
        Cmd::Set { .. } => &SETS,
        Cmd::Await { .. } => &AWAITS,
    }
}

/// A command of a trace, if there is one at this place.
fn command_at(trace: &[Entry], entry: usize, batch: usize, place: usize) -> Option<&Cmd> {
    match batch_at(trace, entry, batch) {
        Some(found) => found.commands.as_slice().get(place),
        None => None,
    }
}

/// A batch of a trace, if there is one at this place.
fn batch_at(trace: &[Entry], entry: usize, batch: usize) -> Option<&Batch> {
    match trace.get(entry) {
        Some(Entry::Submit { batches, .. }) => batches.as_slice().get(batch),
        _ => None,
    }
}

use std::alloc::AllocError;
use vk_model::{Entry, Format, Kind, Layout, Sharing};

/// The name of a layout in Vulkan, or its number where no transfer has to do with it.
pub fn push_layout(out: &mut String, layout: Layout) -> Result<(), AllocError> {
    match layout.code() {
        0 => out.push_str("UNDEFINED"),
        1 => out.push_str("GENERAL"),
        6 => out.push_str("TRANSFER_SRC_OPTIMAL"),
        7 => out.push_str("TRANSFER_DST_OPTIMAL"),
        code => write!(out, "layout {code}"),
    }
}

/// The name of a format in Vulkan.
pub fn format_name(format: Format) -> &'static str {
    match format {
        Format::R8Uint => "R8_UINT",
        Format::R8G8Uint => "R8G8_UINT",
        Format::R8G8B8A8Uint => "R8G8B8A8_UINT",
        Format::R16Uint => "R16_UINT",
        Format::R32Uint => "R32_UINT",
        Format::R32G32Uint => "R32G32_UINT",
        Format::R32G32B32A32Uint => "R32G32B32A32_UINT",
    }
}

/// The word of a trace for a tiling.
pub fn tiling_name(tiling: Kind) -> &'static str {
    match tiling {
        Kind::Linear => "linear",
        Kind::Optimal => "optimal",
    }
}

/// The word of a trace for who owns a resource.
pub fn sharing_name(sharing: Sharing) -> &'static str {
    match sharing {
        Sharing::Exclusive => "exclusive",
        Sharing::Concurrent => "concurrent",
    }
}

/// What a resource is called that has this id: by the first entry that makes one.
pub fn noun_of(trace: &[Entry], resource: u32) -> &'static str {
    for entry in trace {
        match entry {
            Entry::Buffer { id, .. } if *id == resource => return "buffer",
            Entry::Image { id, .. } if *id == resource => return "image",
            _ => {}
        }
    }
    "resource"
}

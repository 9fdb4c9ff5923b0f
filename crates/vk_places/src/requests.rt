use vk_image_tiles::Shape;
use vk_model::{BufferInfo, Entry, ImageInfo, Kind, Place};
use vma_pools::Asked;

/// The bytes of which buffers ask for a multiple, and at a multiple of which they begin (profile).
const BUFFER_UNIT: u64 = 16;

/// What an entry asks for.
#[derive(Clone, Copy)]
pub(crate) enum Request {
    /// A memory object of this type and of so many bytes.
    Object {
        /// The id that it is for.
        id: u32,
        /// The memory type.
        memory_type: u32,
        /// In bytes.
        size: u64,
    },
    /// A place in a pool.
    Shared {
        /// The id that it is for.
        id: u32,
        /// The id of the pool.
        pool: u32,
        /// What is asked.
        asked: Asked,
    },
}

/// What a resource asks for at its place; nothing where it is bound to memory of the trace.
fn request_at(id: u32, place: Place, asked: Asked) -> Option<Request> {
    match place {
        Place::Dedicated { memory_type } => Some(Request::Object {
            id,
            memory_type,
            size: asked.size,
        }),
        Place::Pool { pool } | Place::PoolUpper { pool } => {
            Some(Request::Shared { id, pool, asked })
        }
        Place::Memory { .. } => None,
    }
}

/// What a buffer asks for.
fn buffer_asks(info: &BufferInfo) -> Asked {
    Asked {
        size: info.size.div_ceil(BUFFER_UNIT).saturating_mul(BUFFER_UNIT),
        align: BUFFER_UNIT,
        kind: Kind::Linear,
    }
}

/// What an image asks for; nothing where its shape breaks a rule.
fn image_asks(info: &ImageInfo) -> Option<Asked> {
    let Ok(shape) = Shape::of(info) else {
        return None;
    };
    let need = shape.requirements();
    Some(Asked {
        size: need.size,
        align: need.align,
        kind: info.tiling,
    })
}

/// What an entry asks for; nothing where it makes nothing that lies in memory.
pub(crate) fn request_of(entry: &Entry) -> Option<Request> {
    match entry {
        Entry::Memory { id, info } => Some(Request::Object {
            id: *id,
            memory_type: info.memory_type,
            size: info.size,
        }),
        Entry::Buffer { id, info } => request_at(*id, info.place, buffer_asks(info)),
        Entry::Image { id, info } => request_at(*id, info.place, image_asks(info)?),
        _ => None,
    }
}

use crate::rows::Row;

/// How an array of a trace is written: its word, where it has one, and the names of the members behind.
#[derive(Clone, Copy)]
pub struct Shape {
    /// The word that stands first.
    pub word: Option<&'static str>,
    /// The other members. Of one that is an array of any length the name is in the plural.
    pub names: &'static [&'static str],
}

/// The shape of an array behind a word.
fn worded(word: &'static str, names: &'static [&'static str]) -> Option<Shape> {
    Some(Shape {
        word: Some(word),
        names,
    })
}

/// The shape of the entry of a word.
pub fn entry_shape(word: &str) -> Option<Shape> {
    match word {
        "memory" => worded("memory", &["id", "memory type", "size"]),
        "pool" => worded(
            "pool",
            &[
                "id",
                "kind",
                "memory type",
                "bytes of a block",
                "most blocks",
            ],
        ),
        "buffer" => worded("buffer", &["id", "size", "usage", "sharing", "place"]),
        "image" => worded(
            "image",
            &[
                "id",
                "format",
                "width",
                "height",
                "mip levels",
                "array layers",
                "tiling",
                "usage",
                "sharing",
                "place",
            ],
        ),
        "semaphore" => worded("semaphore", &["id", "initial value"]),
        "event" => worded("event", &["id"]),
        "submit" => worded("submit", &["queue", "batches"]),
        "signal" => worded("signal", &["semaphore", "value"]),
        "wait" => worded("wait", &["waits"]),
        _ => access_shape(word),
    }
}

/// The same of an entry that makes nothing and waits for nothing.
fn access_shape(word: &str) -> Option<Shape> {
    match word {
        "free" => worded("free", &["memory object"]),
        "drop_pool" => worded("drop_pool", &["pool"]),
        "destroy" => worded("destroy", &["buffer or image"]),
        "map" => worded("map", &["buffer"]),
        "unmap" => worded("unmap", &["buffer"]),
        "write" => worded("write", &["buffer", "offset", "bytes"]),
        "read" => worded("read", &["buffer", "offset", "size"]),
        "flush" => worded("flush", &["buffer", "offset", "size"]),
        "invalidate" => worded("invalidate", &["buffer", "offset", "size"]),
        "defrag" => worded(
            "defrag",
            &["id", "pool", "most bytes of a pass", "most moves of a pass"],
        ),
        "pass" => worded("pass", &["defragmentation"]),
        "end_pass" => worded(
            "end_pass",
            &["defragmentation", "ids that stay", "ids that are destroyed"],
        ),
        "end_defrag" => worded("end_defrag", &["defragmentation"]),
        _ => None,
    }
}

/// The shape of the command of a word.
pub fn command_shape(word: &str) -> Option<Shape> {
    match word {
        "fill" => worded("fill", &["buffer", "offset", "size", "word"]),
        "update" => worded("update", &["buffer", "offset", "bytes"]),
        "copy" => worded("copy", &["source", "destination", "regions"]),
        "clear" => worded("clear", &["image", "layout", "color", "ranges"]),
        "copy_in" => worded("copy_in", &["buffer", "image", "layout", "regions"]),
        "copy_out" => worded("copy_out", &["image", "layout", "buffer", "regions"]),
        "copy_image" => worded(
            "copy_image",
            &[
                "source",
                "source layout",
                "destination",
                "destination layout",
                "regions",
            ],
        ),
        "barrier" => worded(
            "barrier",
            &["memory elements", "buffer elements", "image elements"],
        ),
        "set" => worded("set", &["event", "elements"]),
        "await" => worded("await", &["event", "elements"]),
        _ => None,
    }
}

/// The shape of the place of a word.
pub fn place_shape(word: &str) -> Option<Shape> {
    match word {
        "dedicated" => worded("dedicated", &["memory type"]),
        "memory" => worded("memory", &["memory object", "offset"]),
        "pool" => worded("pool", &["pool"]),
        "pool_upper" => worded("pool_upper", &["pool"]),
        _ => None,
    }
}

/// The shape of a batch.
pub const BATCH: Shape = Shape {
    word: None,
    names: &["waits", "commands", "signals"],
};

/// The shape of an array with a fixed number of members.
pub fn row_shape(row: Row) -> Shape {
    Shape {
        word: None,
        names: row_names(row),
    }
}

/// The names of its members.
fn row_names(row: Row) -> &'static [&'static str] {
    match row {
        Row::SemaphoreValue => &["semaphore", "value"],
        Row::Submit => &["semaphore", "value", "stages"],
        Row::Dependency => &[
            "source stages",
            "source accesses",
            "destination stages",
            "destination accesses",
        ],
        Row::BufferElement => &[
            "source stages",
            "source accesses",
            "destination stages",
            "destination accesses",
            "source family",
            "destination family",
            "buffer",
            "offset",
            "size",
        ],
        Row::ImageElement => &[
            "source stages",
            "source accesses",
            "destination stages",
            "destination accesses",
            "source family",
            "destination family",
            "image",
            "old layout",
            "new layout",
            "range",
        ],
        Row::Range => &["first level", "levels", "first layer", "layers"],
        Row::Color => &["first", "second", "third", "fourth"],
        _ => region_names(row),
    }
}

/// The same of a region of a copy.
fn region_names(row: Row) -> &'static [&'static str] {
    match row {
        Row::Copy => &["source offset", "destination offset", "size"],
        Row::BufferImageCopy => &[
            "buffer offset",
            "row length",
            "image height",
            "level",
            "first layer",
            "layers",
            "x",
            "y",
            "width",
            "height",
        ],
        Row::ImageCopy => &[
            "source level",
            "source first layer",
            "destination level",
            "destination first layer",
            "layers",
            "source x",
            "source y",
            "destination x",
            "destination y",
            "width",
            "height",
        ],
        _ => &[],
    }
}

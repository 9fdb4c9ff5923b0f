ghost use Rattle.std.specs.Prelude.{◌≡◌, ◌<◌, ◌^◌, ◌==◌, ◌&&◌};
ghost use Rattle.vk_image_bytes.specs.Inner.Rows as rows;

/// Where rows of bytes begin that are equally far apart.
#[derive(Clone, Copy)]
pub struct Places {
    /// Where the first one begins.
    pub first: u64,
    /// How far it is from a row to the next.
    pub row: u64,
    /// How far it is from a layer to the next.
    pub layer: u64,
}

impl Places {
    /// Where a row of a layer begins, if that is a number of 64 bits.
    pub fn at(&self, layer: u32, row: u32) -> u64
        ensures { rows.place_at self.now layer row < 2 ^ 64 → result ≡ rows.place_at self.now layer row }
    {
        let layers = u64::from(layer).saturating_mul(self.layer);
        let rows = u64::from(row).saturating_mul(self.row);
        self.first.saturating_add(layers.saturating_add(rows))
    }
}

/// Rows of bytes that are copied.
#[derive(Clone, Copy)]
pub struct Rows {
    /// Where they are read.
    pub source: Places,
    /// Where they are written.
    pub destination: Places,
    /// How many bytes each has.
    pub size: u64,
    /// How many each layer has.
    pub height: u32,
    /// How many layers there are.
    pub layers: u32,
}

impl Rows {
    /// The same rows, read where they were written.
    pub fn turned(self) -> Rows
        ensures { result ≡ rows.turned self }
    {
        Rows {
            source: self.destination,
            destination: self.source,
            ..self
        }
    }

    /// Whether the rows of a layer lie together, in the source and in the destination.
    pub fn lie_together(&self) -> bool
        ensures { result ≡ (self.now.source.row == self.now.size && self.now.destination.row == self.now.size) }
    {
        self.source.row == self.size && self.destination.row == self.size
    }
}

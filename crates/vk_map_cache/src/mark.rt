ghost use Rattle.std.specs.Prelude.{◌≡◌, ◌<◌, ◌≤◌, ℕ, length, replicate, slice_index};
ghost use Rattle.vk_model.specs.Run.Caches.{Cell, value_through};
ghost use Rattle.vk_map_cache.specs.Holdings.{IsCell};
ghost use Rattle.vk_map_cache.specs.Inner.Marks.{holding_of, mark_at, IsMarked, changed};

/// Whether a cache holds a byte, and how (Vulkan, "Execution and Memory Dependencies", on
/// availability and visibility).
#[repr(u8)]
#[derive(Clone, Copy, Debug, PartialEq, Eq)]
pub enum Mark {
    /// It doesn't hold it.
    Absent,
    /// It holds a copy.
    Clean,
    /// It holds a write that hasn't reached memory.
    Dirty,
}

/// What a cache does with bytes beside its region.
#[derive(Clone, Copy)]
pub(crate) enum Change {
    /// What is dirty reaches memory, and stays as a copy.
    WriteBack,
    /// What is dirty reaches memory, and nothing is held any more.
    Evict,
    /// What isn't held is copied from memory.
    Load,
    /// What is held is evicted, and what isn't is loaded.
    TurnOver,
}

/// A byte with what is held of it.
#[derive(Clone, Copy)]
pub(crate) struct HeldByte {
    /// Whether it is held.
    pub mark: Mark,
    /// The value that is held, if one is.
    pub value: u8,
    /// The value in memory.
    pub region: u8,
}

/// What a change makes of a byte.
fn changed_byte(change: Change, byte: HeldByte) -> HeldByte
    ensures { (cell : Cell) → IsCell (holding_of byte.mark byte.value) byte.region cell
        → IsCell (holding_of result.mark result.value) result.region (changed change cell) }
{
    match change {
        Change::WriteBack => match byte.mark {
            Mark::Absent => byte,
            Mark::Clean => byte,
            Mark::Dirty => written_back(byte, Mark::Clean),
        },
        Change::Evict => match byte.mark {
            Mark::Absent => byte,
            Mark::Clean => dropped(byte),
            Mark::Dirty => written_back(byte, Mark::Absent),
        },
        Change::Load => match byte.mark {
            Mark::Absent => loaded(byte),
            Mark::Clean => byte,
            Mark::Dirty => byte,
        },
        Change::TurnOver => match byte.mark {
            Mark::Absent => loaded(byte),
            Mark::Clean => dropped(byte),
            Mark::Dirty => written_back(byte, Mark::Absent),
        },
    }
}

/// The byte when its value has reached memory.
fn written_back(byte: HeldByte, mark: Mark) -> HeldByte
    ensures { result ≡ record { mark = mark; value = byte.value; region = byte.value } }
{
    HeldByte {
        mark,
        value: byte.value,
        region: byte.value,
    }
}

/// The byte when it isn't held any more.
fn dropped(byte: HeldByte) -> HeldByte
    ensures { result ≡ record byte { mark = Mark.Absent } }
{
    HeldByte {
        mark: Mark::Absent,
        value: byte.value,
        region: byte.region,
    }
}

/// The byte when the cache has a copy.
fn loaded(byte: HeldByte) -> HeldByte
    ensures { result ≡ record { mark = Mark.Clean; value = byte.region; region = byte.region } }
{
    HeldByte {
        mark: Mark::Clean,
        value: byte.region,
        region: byte.region,
    }
}

/// Changes each byte of a part of a region, of which this is held.
pub(crate) fn change_bytes(change: Change, region: &mut [u8], marks: &mut [Mark], values: &mut [u8])
    requires marks { length marks.old ≡ length region.old }
    requires values { length values.old ≡ length region.old }
    ensures { (k : ℕ) (cell : Cell) → k < length region.old
        → IsMarked marks.old values.old region.old k cell
        → IsMarked marks.new values.new region.new k (changed change cell) }
{
    for i in 0..region.len() {
        let byte = changed_byte(
            change,
            HeldByte {
                mark: marks[i],
                value: values[i],
                region: region[i],
            },
        );
        marks[i] = byte.mark;
        values[i] = byte.value;
        region[i] = byte.region;
    }
}

/// The value of a byte through what is held of it.
fn value_of(mark: Mark, value: u8, region: u8) -> u8
    ensures { result ≡ value_through (holding_of mark value) region }
{
    match mark {
        Mark::Absent => region,
        Mark::Clean => value,
        Mark::Dirty => value,
    }
}

/// Puts over each byte what is held of it.
pub(crate) fn read_through(out: &mut [u8], marks: &[Mark], values: &[u8])
    requires marks { length marks.now ≡ length out.old }
    requires values { length values.now ≡ length out.old }
    ensures { (k : ℕ) → k < length out.old
        → slice_index out.new k
        ≡ value_through (holding_of (mark_at marks.now k) (slice_index values.now k))
        (slice_index out.old k) }
{
    for i in 0..out.len() {
        out[i] = value_of(marks[i], values[i], out[i]);
    }
}

/// Marks bytes alike.
pub(crate) fn mark_all(marks: &mut [Mark], mark: Mark)
    ensures { marks.new ≡ replicate (length marks.old) mark }
{
    marks.fill(mark);
}

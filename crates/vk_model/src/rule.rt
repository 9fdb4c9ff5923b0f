ghost use Rattle.std.specs.Prelude.{◌≡◌};
ghost use Rattle.vk_model.specs.Rules.Names.{rule_name};

/// A rule that a trace may break, in the order in which rules are tested at a point.
#[derive(Clone, Copy, Debug, PartialEq, Eq)]
pub enum Rule {
    /// The id that an entry makes was made before, also by an object that has ended.
    NewId,
    /// An id named isn't a live object of the kind asked, or a pass ends with a resource of another pool.
    LiveId,
    /// A submit names a queue over 3.
    Queue,
    /// A clear, set or await is on queue 2 or 3, which transfer alone.
    QueueKind,
    /// A size or a count is 0 or over its limit.
    Size,
    /// A resource is made with no or an unknown usage, or used without the usage that the use needs.
    Usage,
    /// A memory type isn't known, or isn't allowed for the resource.
    MemoryType,
    /// A memory object or a requirement is of 0 or over 67,108,864 bytes.
    MemorySize,
    /// A resource asks for more than half a block of its pool.
    PoolSize,
    /// A resource ends past the memory object that it is bound to.
    BindRange,
    /// A resource is bound at an offset that isn't a multiple of its alignment.
    BindAlign,
    /// A resource is bound over a live one, or shares a page with one of the other kind.
    Aliased,
    /// Bytes outside a buffer are named, or rows shorter than their region.
    Range,
    /// An offset or a size isn't a multiple of its unit.
    Align,
    /// In one command a destination meets a source or another destination, or an id is listed twice.
    Overlap,
    /// The texel sizes of an image copy differ.
    Format,
    /// Levels, layers or texels outside an image are named, or none at all.
    Subresource,
    /// A stage or an access isn't known, or an access is one that none of its stages makes.
    Stage,
    /// A layout isn't allowed for the use, or isn't the current one.
    Layout,
    /// The old layout of a transition is neither UNDEFINED nor the current one.
    OldLayout,
    /// An ownership transfer is of less than a whole resource.
    OwnerWhole,
    /// A release or an acquire doesn't fit its other half, its queue or its resource.
    OwnerPair,
    /// An event is set twice, or awaited where it wasn't set earlier on this queue.
    EventState,
    /// An await has other dependency elements than its set.
    EventDependency,
    /// A signal's value isn't above the initial one and all earlier signals.
    SignalValue,
    /// An earlier signal of the semaphore isn't ordered before this one.
    SignalOrder,
    /// A batch waits for a value above the counter.
    WaitBeforeSignal,
    /// The host waits for a value above the counter, when all batches that can be started are.
    WaitNever,
    /// A memory object is mapped twice, or accessed or unmapped without being mapped.
    MapState,
    /// Memory that isn't visible to the host is mapped.
    HostVisible,
    /// A pool's algorithm has no upper end, or can't be defragmented.
    PoolKind,
    /// An entry doesn't fit the passes that are open.
    PassState,
    /// A pass begins or ends while a command on its pool isn't known complete.
    PassBusy,
    /// A resource of a pool is written inside a pass.
    PassWrite,
    /// A write isn't ordered after an earlier read of the byte.
    HazardWar,
    /// A read has no memory dependency on an earlier write of the byte.
    HazardRaw,
    /// A write has no memory dependency on an earlier write of the byte.
    HazardWaw,
    /// An object ends while it is in use.
    InUse,
    /// The host reads an undefined byte.
    ReadUndefined,
    /// The trace has more than 131,072 points.
    Limit,
}

impl Rule {
    /// The rule's name, as it is printed.
    pub fn name(self) -> &'static str
        ensures { result.now ≡ rule_name self }
    {
        match self {
            Rule::NewId => "NEW_ID",
            Rule::LiveId => "LIVE_ID",
            Rule::Queue => "QUEUE",
            Rule::QueueKind => "QUEUE_KIND",
            Rule::Size => "SIZE",
            Rule::Usage => "USAGE",
            Rule::MemoryType => "MEMORY_TYPE",
            Rule::MemorySize => "MEMORY_SIZE",
            Rule::PoolSize => "POOL_SIZE",
            Rule::BindRange => "BIND_RANGE",
            Rule::BindAlign => "BIND_ALIGN",
            Rule::Aliased => "ALIASED",
            Rule::Range => "RANGE",
            Rule::Align => "ALIGN",
            Rule::Overlap => "OVERLAP",
            Rule::Format => "FORMAT",
            Rule::Subresource => "SUBRESOURCE",
            Rule::Stage => "STAGE",
            Rule::Layout => "LAYOUT",
            Rule::OldLayout => "OLD_LAYOUT",
            Rule::OwnerWhole => "OWNER_WHOLE",
            Rule::OwnerPair => "OWNER_PAIR",
            Rule::EventState => "EVENT_STATE",
            Rule::EventDependency => "EVENT_DEPENDENCY",
            Rule::SignalValue => "SIGNAL_VALUE",
            Rule::SignalOrder => "SIGNAL_ORDER",
            Rule::WaitBeforeSignal => "WAIT_BEFORE_SIGNAL",
            Rule::WaitNever => "WAIT_NEVER",
            Rule::MapState => "MAP_STATE",
            Rule::HostVisible => "HOST_VISIBLE",
            Rule::PoolKind => "POOL_KIND",
            Rule::PassState => "PASS_STATE",
            Rule::PassBusy => "PASS_BUSY",
            Rule::PassWrite => "PASS_WRITE",
            Rule::HazardWar => "HAZARD_WAR",
            Rule::HazardRaw => "HAZARD_RAW",
            Rule::HazardWaw => "HAZARD_WAW",
            Rule::InUse => "IN_USE",
            Rule::ReadUndefined => "READ_UNDEFINED",
            Rule::Limit => "LIMIT",
        }
    }
}

/// A point of a trace: an entry, or a command, a wait or a signal of a batch. The numbers count from 0:
/// the entry, the batch in its submit, and the place in the batch's list.
#[derive(Clone, Copy, Debug, PartialEq, Eq)]
pub enum At {
    /// The number of an entry.
    Entry(usize),
    /// The entry, the batch, and the command in it.
    Command(usize, usize, usize),
    /// The entry, the batch, and the wait in it.
    Wait(usize, usize, usize),
    /// The entry, the batch, and the signal in it.
    Signal(usize, usize, usize),
}

ghost use Rattle.std.specs.Prelude.{◌≡◌, IsTrue};
ghost use Rattle.vk_words.specs.Sentences.{rule_sentence};
ghost use Rattle.vk_words.specs.Inner.Kinds.{is_of_memory, is_of_binding, is_of_parts, is_of_layouts, is_of_signals, is_of_maps, is_of_pools, is_of_orders};

use vk_model::Rule;

/// What a rule says, in a sentence: the first one of its section in the rule book.
pub fn sentence(rule: Rule) -> &'static str
    ensures { result.now ≡ rule_sentence rule }
{
    match rule {
        Rule::NewId => {
            "An entry makes an object with an id that was made before, also where that object \
             has ended."
        }
        Rule::LiveId => { "An id is named that isn't a live object of the kind that is asked for." }
        Rule::Queue => "A submit names a queue over 3.",
        Rule::QueueKind => {
            "A clear, a set or an await is on queue 2 or 3, whose family does transfers \
             alone."
        }
        Rule::Size => "A size or a count is 0, or over its limit.",
        Rule::Usage | Rule::MemoryType | Rule::MemorySize | Rule::PoolSize => memory_sentence(rule),
        Rule::BindRange | Rule::BindAlign | Rule::Aliased => binding_sentence(rule),
        Rule::Range | Rule::Align | Rule::Overlap | Rule::Format => part_sentence(rule),
        Rule::Subresource | Rule::Stage => part_sentence(rule),
        Rule::Layout | Rule::OldLayout => layout_sentence(rule),
        Rule::OwnerWhole | Rule::OwnerPair => layout_sentence(rule),
        Rule::EventState | Rule::EventDependency => signal_sentence(rule),
        Rule::SignalValue | Rule::SignalOrder | Rule::WaitBeforeSignal | Rule::WaitNever =>
            signal_sentence(rule),
        Rule::MapState | Rule::HostVisible => mapping_sentence(rule),
        Rule::PoolKind | Rule::PassState | Rule::PassBusy | Rule::PassWrite => pool_sentence(rule),
        Rule::HazardWar | Rule::HazardRaw | Rule::HazardWaw | Rule::InUse | Rule::ReadUndefined =>
            order_sentence(rule),
        Rule::Limit => "The point is number 131,072 or above, counted from 0.",
    }
}

/// The sentence of a rule about what a resource or a memory object asks for.
fn memory_sentence(rule: Rule) -> &'static str
    requires { IsTrue (is_of_memory rule) }
    ensures { result.now ≡ rule_sentence rule }
{
    match rule {
        Rule::Usage => {
            "A resource is made without a usage or with one that isn't known, or it is used \
             without the usage that this needs: TRANSFER_SRC to be copied from, TRANSFER_DST \
             to be written by a command, and either for a transition to the layout of its \
             name."
        }
        Rule::MemoryType => {
            "A memory type isn't there, or isn't one that the resource allows: an optimal \
             image allows type 0 alone."
        }
        Rule::MemorySize => {
            "A memory object of no bytes; it, or what a resource asks for, is over 67,108,864 \
             bytes."
        }
        Rule::PoolSize => "A resource asks for more than half a block of its pool.",
        _ => unreachable!(),
    }
}

/// The sentence of a rule about where a resource lies in its memory object.
fn binding_sentence(rule: Rule) -> &'static str
    requires { IsTrue (is_of_binding rule) }
    ensures { result.now ≡ rule_sentence rule }
{
    match rule {
        Rule::BindRange => {
            "A resource, by the bytes that it asks for, ends past the memory object that it \
             is bound to."
        }
        Rule::BindAlign => {
            "The offset of a resource in its memory object isn't a multiple of its alignment: \
             16 of a buffer, 64 of a linear image, 256 of an optimal one, and 64 of all on \
             memory type 2."
        }
        Rule::Aliased => {
            "The bytes of a resource meet those of a live resource in the same memory object, \
             or both have bytes on one page of 1,024 bytes and just one of them is an optimal \
             image."
        }
        _ => unreachable!(),
    }
}

/// The sentence of a rule about the bytes, texels and stages that are named.
fn part_sentence(rule: Rule) -> &'static str
    requires { IsTrue (is_of_parts rule) }
    ensures { result.now ≡ rule_sentence rule }
{
    match rule {
        Rule::Range => {
            "Bytes outside a buffer are named, or a length to the end from the end or past \
             it; a row length or an image height is under its region's width or height, and \
             not 0."
        }
        Rule::Align => {
            "The offset or the size of a fill or an update isn't a multiple of 4; the buffer \
             offset of a region isn't a multiple of the texel's bytes, or on queue 2 or 3 not \
             of 4."
        }
        Rule::Overlap => {
            "In one command, what is written meets what is read, or two regions or ranges \
             write the same; two transitions of one barrier meet."
        }
        Rule::Format => {
            "The texels of the two images of a copy have different numbers of bytes."
        }
        Rule::Subresource => {
            "A clear, a copy or an image element names levels, layers or texels outside the \
             image, or none of them."
        }
        Rule::Stage => {
            "A stage or an access isn't known, or an access is one that none of the stages \
             beside it makes: TRANSFER_READ and TRANSFER_WRITE need TRANSFER or ALL_COMMANDS, \
             HOST_READ and HOST_WRITE need HOST; or HOST is in a batch's wait or signal, or \
             in the source of an event's element."
        }
        _ => unreachable!(),
    }
}

/// The sentence of a rule about layouts and ownership.
fn layout_sentence(rule: Rule) -> &'static str
    requires { IsTrue (is_of_layouts rule) }
    ensures { result.now ≡ rule_sentence rule }
{
    match rule {
        Rule::Layout => {
            "A clear or a copy names a layout that it doesn't allow, or that isn't the \
             current one of each level and layer that it reaches; or a transition names a \
             layout that isn't known, or goes to UNDEFINED."
        }
        Rule::OldLayout => {
            "The old layout of a transition is neither UNDEFINED nor the current one of each \
             level and layer."
        }
        Rule::OwnerWhole => {
            "The queue families of an element differ, so it is half of an ownership transfer, \
             and its range isn't the whole buffer or image."
        }
        Rule::OwnerPair => {
            "A half of an ownership transfer doesn't fit its other half, its queue or its \
             resource."
        }
        _ => unreachable!(),
    }
}

/// The sentence of a rule about events and semaphores.
fn signal_sentence(rule: Rule) -> &'static str
    requires { IsTrue (is_of_signals rule) }
    ensures { result.now ≡ rule_sentence rule }
{
    match rule {
        Rule::EventState => {
            "An event is set that was set before, or awaited where it wasn't set earlier on \
             the same queue."
        }
        Rule::EventDependency => {
            "An await has other dependency elements than the set of its event, or another \
             order of them."
        }
        Rule::SignalValue => {
            "The value of a signal, by a batch or by the host, isn't above the semaphore's \
             initial one and all earlier signals."
        }
        Rule::SignalOrder => {
            "An earlier signal of the semaphore isn't ordered before this one, so that in \
             some allowed order its value comes after the greater one."
        }
        Rule::WaitBeforeSignal => "Nothing breaks it.",
        Rule::WaitNever => {
            "The host waits for a value above the semaphore's counter, when all batches that \
             can be started are."
        }
        _ => unreachable!(),
    }
}

/// The sentence of a rule about mapped memory.
fn mapping_sentence(rule: Rule) -> &'static str
    requires { IsTrue (is_of_maps rule) }
    ensures { result.now ≡ rule_sentence rule }
{
    match rule {
        Rule::MapState => {
            "Memory is read, written, flushed, invalidated or unmapped by the host that isn't \
             mapped; or a memory object of the trace is mapped twice; or a resource is \
             destroyed, or ended with a pass, whose own memory is mapped."
        }
        Rule::HostVisible => "A buffer on memory type 0 is mapped, which the host can't see.",
        _ => unreachable!(),
    }
}

/// The sentence of a rule about pools and their passes.
fn pool_sentence(rule: Rule) -> &'static str
    requires { IsTrue (is_of_pools rule) }
    ensures { result.now ≡ rule_sentence rule }
{
    match rule {
        Rule::PoolKind => {
            "A resource asks for the upper end of a pool that isn't linear or may have \
             several blocks, or a linear pool is defragmented."
        }
        Rule::PassState => {
            "An entry doesn't fit the passes that are open: a pool is defragmented or dropped \
             that has a defragmentation; a pass begins while one is open; a defragmentation \
             ends inside its pass; a pass ends that isn't open; a resource of the pool is \
             destroyed inside a pass."
        }
        Rule::PassBusy => {
            "A pass begins or ends while a submitted command that names a resource of the \
             pool isn't known complete."
        }
        Rule::PassWrite => {
            "The host, a command or a transition writes a resource of a pool inside a pass."
        }
        _ => unreachable!(),
    }
}

/// The sentence of a rule about what has to come before a point.
fn order_sentence(rule: Rule) -> &'static str
    requires { IsTrue (is_of_orders rule) }
    ensures { result.now ≡ rule_sentence rule }
{
    match rule {
        Rule::HazardWar => {
            "A write isn't ordered after an earlier read of the byte, so that the read may \
             see it."
        }
        Rule::HazardRaw => {
            "A read has no memory dependency on an earlier write of the byte, so that it may \
             get what was there before."
        }
        Rule::HazardWaw => {
            "A write has no memory dependency on an earlier write of the byte, so that either \
             value may be left."
        }
        Rule::InUse => {
            "A resource is destroyed while a submitted command that names it isn't known \
             complete to the host, or a memory object is freed, or a pool dropped, with a \
             live resource in it."
        }
        Rule::ReadUndefined => {
            "The host reads a byte that is undefined: never written; copied from one that \
             was; lost by a transition from UNDEFINED, or by a use of another queue family \
             without a transfer of ownership; or written by the host to cached memory and \
             invalidated before a flush."
        }
        _ => unreachable!(),
    }
}

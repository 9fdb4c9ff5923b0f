ghost use Rattle.std.specs.Prelude.{◌≡◌, ◌∷◌, IfOk, None};
ghost use Rattle.std.specs.List.{find};
ghost use Rattle.vk_model.specs.Trace.Structure.{IsOrdered};
ghost use Rattle.vk_model.specs.Trace.Point.{Past, Host, Run, Point as AnyPoint};
ghost use Rattle.vk_model.specs.Rules.Table as table;
ghost use Rattle.vk_model.specs.Rules.Hazards.{breaks_in_use};
ghost use Rattle.vk_model.specs.Trace.PointViews.{action_of, point_of};
ghost use Rattle.vk_history.specs.PointViews.{past};
ghost use Rattle.vk_history.specs.Judged.{early_rules, late_rules, first_among};
ghost use Rattle.vk_validate.specs.Inner.Early.{breaks_early, AreSearched};
ghost use Rattle.vk_touches.specs.Conflicts.{AreConflicts};

mod commands;
mod hazards;

use std::alloc::AllocError;
use vk_history::History;
use vk_model::{Action, Cmd, Entry, Point, Rule};
use vk_touches::Conflicts;

/// Whether a point breaks the rules that need memory to be judged.
#[derive(Clone, Copy)]
pub(crate) struct Searched {
    /// OVERLAP.
    pub(crate) is_overlapping: bool,
    /// SIGNAL_ORDER.
    pub(crate) is_unordered: bool,
    /// OWNER_PAIR.
    pub(crate) is_unpaired: bool,
    /// PASS_BUSY.
    pub(crate) is_pass_busy: bool,
}

/// The rules that are judged before the accesses of a point, in the order of their tests.
const EARLY: [Rule; 34] = [
    Rule::NewId,
    Rule::LiveId,
    Rule::Queue,
    Rule::QueueKind,
    Rule::Size,
    Rule::Usage,
    Rule::MemoryType,
    Rule::MemorySize,
    Rule::PoolSize,
    Rule::BindRange,
    Rule::BindAlign,
    Rule::Aliased,
    Rule::Range,
    Rule::Align,
    Rule::Overlap,
    Rule::Format,
    Rule::Subresource,
    Rule::Stage,
    Rule::Layout,
    Rule::OldLayout,
    Rule::OwnerWhole,
    Rule::OwnerPair,
    Rule::EventState,
    Rule::EventDependency,
    Rule::SignalValue,
    Rule::SignalOrder,
    Rule::WaitBeforeSignal,
    Rule::WaitNever,
    Rule::MapState,
    Rule::HostVisible,
    Rule::PoolKind,
    Rule::PassState,
    Rule::PassBusy,
    Rule::PassWrite,
];

/// Those of them that speak of commands, in the same order.
const ON_COMMANDS: [Rule; 18] = [
    Rule::LiveId,
    Rule::QueueKind,
    Rule::Size,
    Rule::Usage,
    Rule::Range,
    Rule::Align,
    Rule::Overlap,
    Rule::Format,
    Rule::Subresource,
    Rule::Stage,
    Rule::Layout,
    Rule::OldLayout,
    Rule::OwnerWhole,
    Rule::OwnerPair,
    Rule::EventState,
    Rule::EventDependency,
    Rule::SignalOrder,
    Rule::PassWrite,
];

/// Those of them that speak of entries, in the same order.
const ON_ENTRIES: [Rule; 24] = [
    Rule::NewId,
    Rule::LiveId,
    Rule::Queue,
    Rule::Size,
    Rule::Usage,
    Rule::MemoryType,
    Rule::MemorySize,
    Rule::PoolSize,
    Rule::BindRange,
    Rule::BindAlign,
    Rule::Aliased,
    Rule::Range,
    Rule::Overlap,
    Rule::Stage,
    Rule::OwnerPair,
    Rule::SignalValue,
    Rule::SignalOrder,
    Rule::WaitNever,
    Rule::MapState,
    Rule::HostVisible,
    Rule::PoolKind,
    Rule::PassState,
    Rule::PassBusy,
    Rule::PassWrite,
];

/// Those of them that speak of a new semaphore, in the same order.
const ON_SEMAPHORES: [Rule; 3] = [Rule::NewId, Rule::OwnerPair, Rule::SignalOrder];

/// The first rule of the table that a point breaks. The only error is want of memory.
pub fn first_rule(history: &History<'_>, point: &Point<'_>) -> Result<Option<Rule>, AllocError>
    requires ordered { IsOrdered (point_of point.now ∷ past history.now) }
    ensures { IfOk result (λ r. r ≡ table.first_rule (past history.now) (point_of point.now)) }
{
    let searched = search(history, point)?;
    if let Some(rule) = first_early(history, point, searched) {
        return Ok(Some(rule));
    }
    let found = hazards::conflicts(history, point)?;
    let is_used = hazards::breaks_in_use(history, point)?;
    Ok(first_late(history, point, found, is_used))
}

/// What the rules find that need memory to be judged.
fn search(history: &History<'_>, point: &Point<'_>) -> Result<Searched, AllocError>
    requires ordered { IsOrdered (point_of point.now ∷ past history.now) }
    ensures { IfOk result (λ found. AreSearched found (past history.now) (point_of point.now)) }
{
    let is_overlapping = vk_rules::breaks_overlap(history, point)?;
    let is_unordered = vk_rules::breaks_signal_order(history, point)?;
    let is_unpaired = vk_rules::breaks_owner_pair(history, point)?;
    let is_pass_busy = vk_rules::breaks_pass_busy(history, point)?;
    Ok(Searched {
        is_overlapping,
        is_unordered,
        is_unpaired,
        is_pass_busy,
    })
}

fn first_early(history: &History<'_>, point: &Point<'_>, searched: Searched) -> Option<Rule>
    requires ordered { IsOrdered (point_of point.now ∷ past history.now) }
    requires searched { AreSearched searched (past history.now) (point_of point.now) }
    ensures { result ≡ first_among early_rules (past history.now) (point_of point.now) }
{
    match point.action {
        Action::Run(command) => first_on_command(history, point, command, searched),
        action => first_of(rules_on(action), history, point, searched),
    }
}

/// The first early rule that the command of a point breaks.
fn first_on_command(
    history: &History<'_>,
    point: &Point<'_>,
    command: &Cmd,
    searched: Searched,
) -> Option<Rule>
    requires ordered { IsOrdered (point_of point.now ∷ past history.now) }
    requires searched { AreSearched searched (past history.now) (point_of point.now) }
    requires command { action_of point.now.action ≡ Run command.now }
    ensures { result ≡ first_among early_rules (past history.now) (point_of point.now) }
{
    match command {
        Cmd::Fill { .. } => commands::first_on_buffers(history, point, searched),
        Cmd::Update { .. } => commands::first_on_buffers(history, point, searched),
        Cmd::Copy { .. } => commands::first_on_buffers(history, point, searched),
        Cmd::Barrier { .. } => commands::first_on_barrier(history, point, searched),
        _ => first_of(&ON_COMMANDS, history, point, searched),
    }
}

/// The early rules that an action can break at all, in the order of their tests.
fn rules_on(action: Action<'_>) -> &'static [Rule]
    ensures { (past : Past) (p : AnyPoint) → p.action ≡ action_of action.entry → find (λ r. breaks_early r past p) result.now ≡ first_among early_rules past p }
{
    match action {
        Action::Run(_) => &ON_COMMANDS,
        Action::Host(entry) => rules_on_entry(entry),
        Action::Wait(_) => &EARLY,
        Action::Signal(_) => &EARLY,
    }
}

/// The early rules that an entry can break at all, in the order of their tests.
fn rules_on_entry(entry: &Entry) -> &'static [Rule]
    ensures { (past : Past) (p : AnyPoint) → p.action ≡ Host entry.now → find (λ r. breaks_early r past p) result.now ≡ first_among early_rules past p }
{
    match entry {
        Entry::Semaphore { .. } => &ON_SEMAPHORES,
        _ => &ON_ENTRIES,
    }
}

#[tactic(auto, using(crate::proofs::Judging::Rules::finds))]
fn first_of(
    rules: &[Rule],
    history: &History<'_>,
    point: &Point<'_>,
    searched: Searched,
) -> Option<Rule>
    requires ordered { IsOrdered (point_of point.now ∷ past history.now) }
    requires searched { AreSearched searched (past history.now) (point_of point.now) }
    ensures { result ≡ find (λ r. breaks_early r (past history.now) (point_of point.now)) rules.now }
{
    for rule in rules {
        if breaks_early(*rule, history, point, searched) {
            return Some(*rule);
        }
    }
    None
}

fn breaks_early(rule: Rule, history: &History<'_>, point: &Point<'_>, searched: Searched) -> bool
    requires ordered { IsOrdered (point_of point.now ∷ past history.now) }
    requires searched { AreSearched searched (past history.now) (point_of point.now) }
    ensures { result ≡ breaks_early rule (past history.now) (point_of point.now) }
{
    history.is_judged();
    match rule {
        Rule::NewId => vk_rules::breaks_new_id(history, point),
        Rule::LiveId => vk_rules::breaks_live_id(history, point),
        Rule::Queue => vk_rules::breaks_queue(point),
        Rule::QueueKind => vk_rules::breaks_queue_kind(point),
        Rule::Size => vk_rules::breaks_size(history, point),
        Rule::Usage => vk_rules::breaks_usage(history, point),
        Rule::MemoryType => vk_rules::breaks_memory_type(history, point),
        Rule::MemorySize => vk_rules::breaks_memory_size(point),
        Rule::PoolSize => vk_rules::breaks_pool_size(history, point),
        Rule::BindRange => vk_rules::breaks_bind_range(history, point),
        Rule::BindAlign => vk_rules::breaks_bind_align(history, point),
        Rule::Aliased => vk_rules::breaks_aliased(history, point),
        Rule::Range => vk_rules::breaks_range(history, point),
        Rule::Align => vk_rules::breaks_align(history, point),
        Rule::Overlap => searched.is_overlapping,
        Rule::Format => vk_rules::breaks_format(history, point),
        Rule::Subresource => vk_rules::breaks_subresource(history, point),
        Rule::Stage => vk_rules::breaks_stage(point),
        Rule::Layout => vk_rules::breaks_layout(history, point),
        Rule::OldLayout => vk_rules::breaks_old_layout(history, point),
        Rule::OwnerWhole => vk_rules::breaks_owner_whole(history, point),
        Rule::OwnerPair => searched.is_unpaired,
        Rule::EventState => vk_rules::breaks_event_state(history, point),
        Rule::EventDependency => vk_rules::breaks_event_dependency(history, point),
        Rule::SignalValue => vk_rules::breaks_signal_value(history, point),
        Rule::SignalOrder => searched.is_unordered,
        // A batch is started only once its waits are met.
        Rule::WaitBeforeSignal => false,
        Rule::WaitNever => vk_rules::breaks_wait_never(history, point),
        Rule::MapState => vk_rules::breaks_map_state(history, point),
        Rule::HostVisible => vk_rules::breaks_host_visible(history, point),
        Rule::PoolKind => vk_rules::breaks_pool_kind(history, point),
        Rule::PassState => vk_rules::breaks_pass_state(history, point),
        Rule::PassBusy => searched.is_pass_busy,
        Rule::PassWrite => vk_rules::breaks_pass_write(history, point),
        _ => false,
    }
}

fn first_late(
    history: &History<'_>,
    point: &Point<'_>,
    found: Conflicts,
    is_used: bool,
) -> Option<Rule>
    requires found { AreConflicts found (past history.now) (point_of point.now) }
    requires used { is_used ≡ breaks_in_use (past history.now) (point_of point.now) }
    ensures { result ≡ first_among late_rules (past history.now) (point_of point.now) }
{
    let is_over = vk_rules::breaks_limit(history);
    if found.war {
        Some(Rule::HazardWar)
    } else if found.raw {
        Some(Rule::HazardRaw)
    } else if found.waw {
        Some(Rule::HazardWaw)
    } else if is_used {
        Some(Rule::InUse)
    } else if found.undefined {
        Some(Rule::ReadUndefined)
    } else if is_over {
        Some(Rule::Limit)
    } else {
        None
    }
}

ghost use Rattle.vk_model.specs.declared.rule.Rule.TheVariants as rule;
ghost use Rattle.vk_model.specs.Trace.PointViews.{point_of};
ghost use Rattle.vk_history.specs.PointViews.{past};
ghost use Rattle.vk_findings.specs.Measures.{IsMeasured};

use vk_history::History;
use vk_model::{Point, Rule};
use vk_rules::{
    BadMasks, BadSize, BadType, Hidden, Misaligned, Misplaced, OtherTexels, Outside, OverHalf,
    PartTransfer, PastMemory, PointNumber, PoolUse, QueueNumber, QueueUse, RangeMeasure,
    SizeMeasure, UsageMeasure, align_of, bind_align_of, bind_range_of, format_of, host_visible_of,
    limit_of, memory_size_of, memory_type_of, owner_whole_of, pool_kind_of, pool_size_of,
    queue_kind_of, queue_of, range_of, size_of, stage_of, subresource_of, usage_of,
};

/// What a rule compares at a point that breaks it.
#[derive(Clone, Copy)]
pub enum Measure {
    /// RANGE: where bytes end and the size of their buffer, or a row and its extent.
    Range(RangeMeasure),
    /// STAGE: masks, and what is wrong with them.
    Stage(BadMasks),
    /// USAGE: the usage that is needed, and the one that there is.
    Usage(UsageMeasure),
    /// SUBRESOURCE: numbers, and how many the image has.
    Subresource(Outside),
    /// BIND_RANGE: the range of a resource, and the size of its memory object.
    BindRange(PastMemory),
    /// BIND_ALIGN: an offset, and of what it must be a multiple.
    BindAlign(Misplaced),
    /// MEMORY_TYPE: a memory type, and what it's named for.
    MemoryType(BadType),
    /// MEMORY_SIZE: the bytes that are asked for.
    MemorySize(BadSize),
    /// POOL_SIZE: the bytes that are asked for, and those of a block.
    PoolSize(OverHalf),
    /// HOST_VISIBLE: a buffer, and its memory type.
    HostVisible(Hidden),
    /// SIZE: a number, and its least and its greatest value.
    Size(SizeMeasure),
    /// ALIGN: a number, and of what it must be a multiple.
    Align(Misaligned),
    /// FORMAT: the sizes of two texels.
    Format(OtherTexels),
    /// QUEUE: the number of a queue.
    Queue(QueueNumber),
    /// QUEUE_KIND: a queue, and the command that it doesn't have.
    QueueKind(QueueUse),
    /// OWNER_WHOLE: what is transferred, and the whole of the resource.
    OwnerWhole(PartTransfer),
    /// POOL_KIND: a pool, and what it can't do.
    PoolKind(PoolUse),
    /// LIMIT: the number of a point, and how many a trace may have.
    Limit(PointNumber),
}

/// What a rule compares at a point that comes next, where the point breaks it; nothing of a rule that has
/// no variant of `Measure`. The history is that of the points before it. It takes no memory, and walks
/// over no points.
pub fn measure_of(history: &History<'_>, point: &Point<'_>, rule: Rule) -> Option<Measure>
    ensures { IsMeasured rule (past history.now) (point_of point.now) result }
{
    match rule {
        Rule::Range => of_range(history, point),
        Rule::Stage => of_stage(history, point),
        Rule::Usage => of_usage(history, point),
        Rule::Subresource => of_subresource(history, point),
        Rule::BindRange => of_bind_range(history, point),
        Rule::BindAlign => of_bind_align(history, point),
        Rule::MemoryType => of_memory_type(history, point),
        Rule::MemorySize => of_memory_size(history, point),
        Rule::PoolSize => of_pool_size(history, point),
        Rule::HostVisible => of_host_visible(history, point),
        Rule::Size => of_size(history, point),
        Rule::Align => of_align(history, point),
        Rule::Format => of_format(history, point),
        Rule::Queue => of_queue(history, point),
        Rule::QueueKind => of_queue_kind(history, point),
        Rule::OwnerWhole => of_owner_whole(history, point),
        Rule::PoolKind => of_pool_kind(history, point),
        Rule::Limit => of_limit(history, point),
        _ => None,
    }
}

#[tactic(auto, unfolding(vk_model::specs::Rules::Table::breaks))]
fn of_range(history: &History<'_>, point: &Point<'_>) -> Option<Measure>
    ensures { IsMeasured rule.Range (past history.now) (point_of point.now) result }
{
    let measure = range_of(history, point)?;
    Some(Measure::Range(measure))
}

#[tactic(auto, unfolding(vk_model::specs::Rules::Table::breaks))]
fn of_stage(_history: &History<'_>, point: &Point<'_>) -> Option<Measure>
    ensures { IsMeasured rule.Stage (past _history.now) (point_of point.now) result }
{
    let measure = stage_of(point)?;
    Some(Measure::Stage(measure))
}

#[tactic(auto, unfolding(vk_model::specs::Rules::Table::breaks))]
fn of_usage(history: &History<'_>, point: &Point<'_>) -> Option<Measure>
    ensures { IsMeasured rule.Usage (past history.now) (point_of point.now) result }
{
    let measure = usage_of(history, point)?;
    Some(Measure::Usage(measure))
}

#[tactic(auto, unfolding(vk_model::specs::Rules::Table::breaks))]
fn of_subresource(history: &History<'_>, point: &Point<'_>) -> Option<Measure>
    ensures { IsMeasured rule.Subresource (past history.now) (point_of point.now) result }
{
    let measure = subresource_of(history, point)?;
    Some(Measure::Subresource(measure))
}

#[tactic(auto, unfolding(vk_model::specs::Rules::Table::breaks))]
fn of_bind_range(history: &History<'_>, point: &Point<'_>) -> Option<Measure>
    ensures { IsMeasured rule.BindRange (past history.now) (point_of point.now) result }
{
    let measure = bind_range_of(history, point)?;
    Some(Measure::BindRange(measure))
}

#[tactic(auto, unfolding(vk_model::specs::Rules::Table::breaks))]
fn of_bind_align(history: &History<'_>, point: &Point<'_>) -> Option<Measure>
    ensures { IsMeasured rule.BindAlign (past history.now) (point_of point.now) result }
{
    let measure = bind_align_of(history, point)?;
    Some(Measure::BindAlign(measure))
}

#[tactic(auto, unfolding(vk_model::specs::Rules::Table::breaks))]
fn of_memory_type(history: &History<'_>, point: &Point<'_>) -> Option<Measure>
    ensures { IsMeasured rule.MemoryType (past history.now) (point_of point.now) result }
{
    let measure = memory_type_of(history, point)?;
    Some(Measure::MemoryType(measure))
}

#[tactic(auto, unfolding(vk_model::specs::Rules::Table::breaks))]
fn of_memory_size(_history: &History<'_>, point: &Point<'_>) -> Option<Measure>
    ensures { IsMeasured rule.MemorySize (past _history.now) (point_of point.now) result }
{
    let measure = memory_size_of(point)?;
    Some(Measure::MemorySize(measure))
}

#[tactic(auto, unfolding(vk_model::specs::Rules::Table::breaks))]
fn of_pool_size(history: &History<'_>, point: &Point<'_>) -> Option<Measure>
    ensures { IsMeasured rule.PoolSize (past history.now) (point_of point.now) result }
{
    let measure = pool_size_of(history, point)?;
    Some(Measure::PoolSize(measure))
}

#[tactic(auto, unfolding(vk_model::specs::Rules::Table::breaks))]
fn of_host_visible(history: &History<'_>, point: &Point<'_>) -> Option<Measure>
    ensures { IsMeasured rule.HostVisible (past history.now) (point_of point.now) result }
{
    let measure = host_visible_of(history, point)?;
    Some(Measure::HostVisible(measure))
}

#[tactic(auto, unfolding(vk_model::specs::Rules::Table::breaks))]
fn of_size(history: &History<'_>, point: &Point<'_>) -> Option<Measure>
    ensures { IsMeasured rule.Size (past history.now) (point_of point.now) result }
{
    let measure = size_of(history, point)?;
    Some(Measure::Size(measure))
}

#[tactic(auto, unfolding(vk_model::specs::Rules::Table::breaks))]
fn of_align(history: &History<'_>, point: &Point<'_>) -> Option<Measure>
    ensures { IsMeasured rule.Align (past history.now) (point_of point.now) result }
{
    let measure = align_of(history, point)?;
    Some(Measure::Align(measure))
}

#[tactic(auto, unfolding(vk_model::specs::Rules::Table::breaks))]
fn of_format(history: &History<'_>, point: &Point<'_>) -> Option<Measure>
    ensures { IsMeasured rule.Format (past history.now) (point_of point.now) result }
{
    let measure = format_of(history, point)?;
    Some(Measure::Format(measure))
}

#[tactic(auto, unfolding(vk_model::specs::Rules::Table::breaks))]
fn of_queue(_history: &History<'_>, point: &Point<'_>) -> Option<Measure>
    ensures { IsMeasured rule.Queue (past _history.now) (point_of point.now) result }
{
    let measure = queue_of(point)?;
    Some(Measure::Queue(measure))
}

#[tactic(auto, unfolding(vk_model::specs::Rules::Table::breaks))]
fn of_queue_kind(_history: &History<'_>, point: &Point<'_>) -> Option<Measure>
    ensures { IsMeasured rule.QueueKind (past _history.now) (point_of point.now) result }
{
    let measure = queue_kind_of(point)?;
    Some(Measure::QueueKind(measure))
}

#[tactic(auto, unfolding(vk_model::specs::Rules::Table::breaks))]
fn of_owner_whole(history: &History<'_>, point: &Point<'_>) -> Option<Measure>
    ensures { IsMeasured rule.OwnerWhole (past history.now) (point_of point.now) result }
{
    let measure = owner_whole_of(history, point)?;
    Some(Measure::OwnerWhole(measure))
}

#[tactic(auto, unfolding(vk_model::specs::Rules::Table::breaks))]
fn of_pool_kind(history: &History<'_>, point: &Point<'_>) -> Option<Measure>
    ensures { IsMeasured rule.PoolKind (past history.now) (point_of point.now) result }
{
    let measure = pool_kind_of(history, point)?;
    Some(Measure::PoolKind(measure))
}

#[tactic(auto, unfolding(vk_model::specs::Rules::Table::breaks))]
fn of_limit(history: &History<'_>, _point: &Point<'_>) -> Option<Measure>
    ensures { IsMeasured rule.Limit (past history.now) (point_of _point.now) result }
{
    let measure = limit_of(history)?;
    Some(Measure::Limit(measure))
}

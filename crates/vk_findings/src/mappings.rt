ghost use Rattle.std.specs.Prelude.{◌≡◌, IfSome, is_some, option_map, option_and_then};
ghost use Rattle.std.specs.List.{find};
ghost use Rattle.vk_model.specs.Trace.Point.{host_of, on_host};
ghost use Rattle.vk_model.specs.Rules.Mapping as rules;
ghost use Rattle.vk_model.specs.Trace.PointViews.{action_of, point_of};
ghost use Rattle.vk_queues.specs.PointViews.{past_of};
ghost use Rattle.vk_history.specs.PointViews.{past};
ghost use Rattle.vk_rules.specs.Mapping.{IsMappedSo};
ghost use Rattle.vk_findings.specs.Mapping.{IsMapState, AreMoves};
ghost use Rattle.vk_findings.specs.Inner.Mapping.{form_of, counted, is_form, moves};

use vk_history::History;
use vk_model::{Action, Entry, Point};
use vk_rules::BadMapping;

/// MAP_STATE: a resource whose mapping doesn't fit, and how often it was mapped and unmapped.
#[derive(Clone, Copy)]
pub struct MapState<'a> {
    /// The resource, and whether what is mapped with it is mapped.
    pub found: BadMapping,
    /// How often that was mapped.
    pub maps: usize,
    /// How often it was unmapped.
    pub unmaps: usize,
    /// The last entry that mapped or unmapped it.
    pub since: Option<Point<'a>>,
}

/// What an entry does to mappings.
#[derive(Clone, Copy)]
enum Form {
    /// It maps a buffer.
    Maps,
    /// It unmaps one.
    Unmaps,
}

/// MAP_STATE: the first resource of a point whose mapping doesn't fit. Where there is one, it walks over
/// the points before it three times.
pub fn map_state_of<'a>(history: &History<'a>, point: &Point<'a>) -> Option<MapState<'a>>
    ensures broken { is_some result ≡ rules.breaks_map_state (past history.now) (point_of point.now) }
    ensures reported { IfSome result (IsMapState (past history.now) (action_of point.now.action)) }
{
    let found = vk_rules::map_state_of(history, point)?;
    Some(with_moves(history, found))
}

/// How often what is mapped with a resource was mapped and unmapped, and by which entry last.
fn with_moves<'a>(history: &History<'a>, found: BadMapping) -> MapState<'a>
    ensures found { result.found ≡ found }
    ensures moves { IsMappedSo (past history.now) found → AreMoves (past history.now) result }
{
    let mapping = mapping_of(history, found.resource);
    let points = history.happened();
    MapState {
        found,
        maps: count(history, points, mapping, Form::Maps),
        unmaps: count(history, points, mapping, Form::Unmaps),
        since: last_move(history, points, mapping),
    }
}

/// What is mapped with a resource: its memory object, or its own allocation, which has its id.
fn mapping_of(history: &History<'_>, resource: u32) -> u32
    ensures { result ≡ rules.mapping (past history.now) resource }
{
    match history.memory_of(resource) {
        Some(memory) => memory,
        None => resource,
    }
}

/// How many points are of a form with a buffer of a mapping.
fn count(history: &History<'_>, points: &[Point<'_>], mapping: u32, form: Form) -> usize
    ensures { result ≡ counted (past history.now) (form_of form) mapping (past_of points.now) }
{
    let mut count = 0;
    for point in points {
        if is_on(history, point, mapping, form) {
            count += 1;
        }
    }
    count
}

/// The last of some points that maps or unmaps a buffer of a mapping.
fn last_move<'a>(history: &History<'_>, points: &[Point<'a>], mapping: u32) -> Option<Point<'a>>
    ensures { option_map point_of result ≡ find (on_host (moves (past history.now) mapping)) (past_of points.now) }
{
    let mut found = None;
    for point in points {
        if is_move(history, point, mapping) {
            found = Some(*point);
        }
    }
    found
}

/// Whether a point maps or unmaps a buffer of a mapping.
fn is_move(history: &History<'_>, point: &Point<'_>, mapping: u32) -> bool
    ensures { result ≡ on_host (moves (past history.now) mapping) (point_of point.now) }
{
    is_on(history, point, mapping, Form::Maps) || is_on(history, point, mapping, Form::Unmaps)
}

/// Whether a point is of a form with a buffer of a mapping.
fn is_on(history: &History<'_>, point: &Point<'_>, mapping: u32, form: Form) -> bool
    ensures { result ≡ on_host (is_form (past history.now) (form_of form) mapping) (point_of point.now) }
{
    match buffer_of(point, form) {
        Some(buffer) => mapping_of(history, buffer) == mapping,
        None => false,
    }
}

/// The buffer of a point that is of a form.
fn buffer_of(point: &Point<'_>, form: Form) -> Option<u32>
    ensures { result ≡ option_and_then (form_of form) (host_of (action_of point.now.action)) }
{
    match (point.action, form) {
        (Action::Host(Entry::Map { buffer }), Form::Maps) => Some(*buffer),
        (Action::Host(Entry::Unmap { buffer }), Form::Unmaps) => Some(*buffer),
        _ => None,
    }
}

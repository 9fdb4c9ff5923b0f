ghost use Rattle.std.specs.Prelude.{◌≡◌, true, IfSome, is_some, option_and_then, option_map};
ghost use Rattle.std.specs.List.{find};
ghost use Rattle.vk_model.specs.Trace.Point.{host_of, on_host};
ghost use Rattle.vk_model.specs.Rules.Passes.{begins, is_of_pool};
ghost use Rattle.vk_model.specs.Trace.PointViews.{action_of, point_of};
ghost use Rattle.vk_queues.specs.PointViews.{past_of};
ghost use Rattle.vk_history.specs.PointViews.{past};
ghost use Rattle.vk_findings.specs.Inner.Begun.{IsBegun, begins_sought, form_of, is_sought, is_there};

use vk_history::History;
use vk_model::{Action, Entry, Point};

/// What was begun and hasn't ended.
#[derive(Clone, Copy)]
pub enum Sought {
    /// A defragmentation of a pool.
    Defrag {
        /// The id of the pool.
        pool: u32,
    },
    /// A pass of whatever defragmentation.
    AnyPass,
    /// A pass of a pool.
    PassIn {
        /// The id of the pool.
        pool: u32,
    },
    /// A pass of a defragmentation.
    PassOf {
        /// The id of the defragmentation.
        defrag: u32,
    },
}

/// What began it.
#[derive(Clone, Copy)]
pub struct Begun<'a> {
    /// The id of the defragmentation.
    pub defrag: u32,
    /// The newest point that began the defragmentation, or a pass of it.
    pub point: Point<'a>,
}

/// What began what is sought, the newest point that did. It walks over what has happened.
pub fn began<'a>(history: &History<'a>, sought: Sought) -> Option<Begun<'a>>
    ensures found { is_there (past history.now) sought ≡ true → is_some result ≡ true }
    ensures reported { IfSome result (IsBegun (past history.now) sought) }
{
    let point = newest(history, history.happened(), sought)?;
    let defrag = defrag_at(&point, sought)?;
    Some(Begun { defrag, point })
}

/// The last of some points that begins what is sought.
fn newest<'a>(history: &History<'a>, points: &[Point<'a>], sought: Sought) -> Option<Point<'a>>
    ensures { option_map point_of result ≡ find (on_host (begins_sought (past history.now) sought)) (past_of points.now) }
{
    let mut found = None;
    for point in points {
        if begins_it(history, point, sought) {
            found = Some(*point);
        }
    }
    found
}

/// Whether a point begins it.
fn begins_it(history: &History<'_>, point: &Point<'_>, sought: Sought) -> bool
    ensures { result ≡ on_host (begins_sought (past history.now) sought) (point_of point.now) }
{
    match defrag_at(point, sought) {
        Some(defrag) => is_sought(history, sought, defrag),
        None => false,
    }
}

/// The defragmentation that a point may begin, or begins a pass of.
fn defrag_at(point: &Point<'_>, sought: Sought) -> Option<u32>
    ensures { result ≡ option_and_then (form_of sought) (host_of (action_of point.now.action)) }
{
    match point.action {
        Action::Host(entry) => defrag_by(entry, sought),
        _ => None,
    }
}

fn defrag_by(entry: &Entry, sought: Sought) -> Option<u32>
    ensures { result ≡ form_of sought entry.now }
{
    match sought {
        Sought::Defrag { .. } => entry.made_id(),
        _ => pass_begun(entry),
    }
}

/// The defragmentation that an entry begins a pass of.
fn pass_begun(entry: &Entry) -> Option<u32>
    ensures { result ≡ begins entry.now }
{
    match entry {
        Entry::Pass { defrag } => Some(*defrag),
        _ => None,
    }
}

/// Whether a defragmentation is sought, or its pass is.
fn is_sought(history: &History<'_>, sought: Sought, defrag: u32) -> bool
    ensures { result ≡ is_sought (past history.now) sought defrag }
{
    match sought {
        Sought::Defrag { pool } => is_of_pool(history, pool, defrag),
        Sought::AnyPass => history.defragmented(defrag).is_some() && history.is_in_pass(defrag),
        Sought::PassIn { pool } => {
            is_of_pool(history, pool, defrag) && history.is_in_pass(defrag)
        }
        Sought::PassOf { defrag: other } => defrag == other && history.is_in_pass(defrag),
    }
}

/// Whether a defragmentation that hasn't ended is of a pool.
fn is_of_pool(history: &History<'_>, pool: u32, defrag: u32) -> bool
    ensures { result ≡ is_of_pool (past history.now) pool defrag }
{
    match history.defragmented(defrag) {
        Some(own) => pool == own,
        None => false,
    }
}

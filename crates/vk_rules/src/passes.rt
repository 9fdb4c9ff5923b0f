ghost use Rattle.std.specs.Prelude.{◌≡◌, ◌==◌, not, IfOk, IfSome, IsTrue, is_some, option_and_then, option_map};
ghost use Rattle.std.specs.List.{list_any};
ghost use Rattle.vk_model.specs.Basics.{holds};
ghost use Rattle.vk_model.specs.Trace.Point.{Host};
ghost use Rattle.vk_model.specs.Trace.Objects.{pool_of};
ghost use Rattle.vk_model.specs.World.Bytes.{resource_at};
ghost use Rattle.vk_model.specs.Rules.Passes as passes;
ghost use Rattle.vk_order.specs.Frontiers.{IsNewNode};
ghost use Rattle.vk_model.specs.Trace.PointViews.{action_of, point_of};
ghost use Rattle.vk_model.specs.Sync.Node.{command_acts, nodes, Hosts};
ghost use Rattle.vk_model.specs.Sync.Access.{transition_bytes};
ghost use Rattle.vk_touches.specs.Touched.{next_node};
ghost use Rattle.vk_history.specs.PointViews.{past};
ghost use Rattle.vk_rules.specs.Sizes.{OnHost};
ghost use Rattle.vk_rules.specs.Passes.{IsBusyResident, IsInPass, IsPassMisfit, IsPassWrite, acts_write};
ghost use Rattle.vk_rules.specs.Inner.Passes.{IsPassing};
ghost use Rattle.vk_rules.specs.Inner.RuleParts as parts;

use crate::ids::is_live_resource;
use crate::written::{written, written_by_element};
use std::alloc::AllocError;
use vk_history::History;
use vk_laws::written_by_host;
use vk_model::{Action, Cmd, Element, Entry, Point};
use vk_order::NewNode;

/// A resource that lies in a pool of which a pass is open.
#[derive(Clone, Copy)]
pub struct InPass {
    /// The id of the resource.
    pub resource: u32,
    /// The id of its pool.
    pub pool: u32,
}

/// PASS_STATE: what an entry doesn't fit.
#[derive(Clone, Copy)]
pub enum PassMisfit {
    /// A pool has a defragmentation that hasn't ended.
    Defrag {
        /// The id of the pool.
        pool: u32,
    },
    /// A pass is open, of whatever defragmentation.
    AnyPass,
    /// A pass of a defragmentation is open.
    Pass {
        /// The id of the defragmentation.
        defrag: u32,
    },
    /// No pass of a defragmentation is open.
    NoPass {
        /// The id of the defragmentation.
        defrag: u32,
    },
    /// A pass of a resource's pool is open.
    Moving(InPass),
}

/// PASS_BUSY: a resource of the pool of a pass, which a submitted command uses that isn't known
/// complete.
#[derive(Clone, Copy)]
pub struct BusyResident {
    /// The id of the defragmentation whose pass begins or ends.
    pub defrag: u32,
    /// The id of its pool.
    pub pool: u32,
    /// The id of the resource.
    pub resource: u32,
}

/// A pass that an entry begins or ends.
#[derive(Clone, Copy)]
struct Passing {
    /// The id of its defragmentation, which hasn't ended.
    pub defrag: u32,
    /// The id of the defragmentation's pool.
    pub pool: u32,
}

/// PASS_STATE: a second defragmentation of a pool, a second pass, the end of one that isn't open or of a
/// defragmentation in one, or the end of a pool or a resource that is being defragmented.
pub fn breaks_pass_state(history: &History<'_>, point: &Point<'_>) -> bool
    ensures { result ≡ passes.breaks_pass_state (past history.now) (point_of point.now) }
{
    pass_state_of(history, point).is_some()
}

/// PASS_STATE: what a point doesn't fit, where it breaks the rule.
pub fn pass_state_of(history: &History<'_>, point: &Point<'_>) -> Option<PassMisfit>
    ensures broken { is_some result ≡ passes.breaks_pass_state (past history.now) (point_of point.now) }
    ensures reported { IfSome result (λ m. OnHost (action_of point.now.action) (λ x. IsPassMisfit (past history.now) x m)) }
{
    match point.action {
        Action::Host(entry) => misfit_of(history, entry),
        _ => None,
    }
}

fn misfit_of(history: &History<'_>, entry: &Entry) -> Option<PassMisfit>
    ensures broken { is_some result ≡ passes.bad_pass (past history.now) entry.now }
    ensures reported { IfSome result (IsPassMisfit (past history.now) entry.now) }
{
    match entry {
        Entry::Defrag { pool, .. } => open_defrag_of(history, *pool),
        Entry::DropPool { pool } => open_defrag_of(history, *pool),
        Entry::Pass { .. } => history.has_pass().then_some(PassMisfit::AnyPass),
        Entry::EndDefrag { defrag } => open_pass_of(history, *defrag),
        Entry::EndPass { defrag, .. } => no_pass_of(history, *defrag),
        Entry::Destroy { resource } => Some(PassMisfit::Moving(in_pass(history, *resource)?)),
        _ => None,
    }
}

fn open_defrag_of(history: &History<'_>, pool: u32) -> Option<PassMisfit>
    ensures broken { is_some result ≡ passes.has_defrag (past history.now) pool }
    ensures reported { IfSome result (λ m. m ≡ PassMisfit.Defrag pool) }
{
    history
        .has_defrag(pool)
        .then_some(PassMisfit::Defrag { pool })
}

fn open_pass_of(history: &History<'_>, defrag: u32) -> Option<PassMisfit>
    ensures broken { is_some result ≡ passes.in_pass (past history.now) defrag }
    ensures reported { IfSome result (λ m. m ≡ PassMisfit.Pass defrag) }
{
    history
        .is_in_pass(defrag)
        .then_some(PassMisfit::Pass { defrag })
}

fn no_pass_of(history: &History<'_>, defrag: u32) -> Option<PassMisfit>
    ensures broken { is_some result ≡ not (passes.in_pass (past history.now) defrag) }
    ensures reported { IfSome result (λ m. m ≡ PassMisfit.NoPass defrag) }
{
    let is_open = history.is_in_pass(defrag);
    (!is_open).then_some(PassMisfit::NoPass { defrag })
}

/// A resource, where a pass of its pool is open.
fn in_pass(history: &History<'_>, resource: u32) -> Option<InPass>
    ensures found { is_some result ≡ passes.moves_now (past history.now) resource }
    ensures same { IfSome result (λ m. m.resource ≡ resource) }
    ensures reported { IfSome result (IsInPass (past history.now)) }
{
    if history.is_moving(resource) {
        let pool = history.pool_of(resource)?;
        Some(InPass { resource, pool })
    } else {
        None
    }
}

/// PASS_WRITE: the host, a command or a transition writes a resource of a pool inside a pass.
pub fn breaks_pass_write(history: &History<'_>, point: &Point<'_>) -> bool
    ensures { result ≡ passes.breaks_pass_write (past history.now) (point_of point.now) }
{
    pass_write_of(history, point).is_some()
}

/// PASS_WRITE: the first resource that a point writes while a pass of its pool is open.
pub fn pass_write_of(history: &History<'_>, point: &Point<'_>) -> Option<InPass>
    ensures broken { is_some result ≡ passes.breaks_pass_write (past history.now) (point_of point.now) }
    ensures reported { IfSome result (IsPassWrite (past history.now) (point_of point.now)) }
{
    match point.action {
        Action::Host(entry) => written_in_pass(history, written_by_host(entry)),
        Action::Run(command) => by_command(history, point.queue, command),
        _ => None,
    }
}

fn by_command(history: &History<'_>, queue: u32, command: &Cmd) -> Option<InPass>
    ensures broken { is_some result ≡ acts_write (past history.now) queue (passes.moves_now (past history.now)) (command_acts command.now) }
    ensures written { IfSome result (λ m. IsTrue (acts_write (past history.now) queue (λ r. r == m.resource) (command_acts command.now))) }
    ensures reported { IfSome result (IsInPass (past history.now)) }
{
    match command {
        Cmd::Barrier { elements } => by_elements(history, queue, elements.as_slice()),
        _ => written_in_pass(history, written(history, command)),
    }
}

fn by_elements(history: &History<'_>, queue: u32, elements: &[Element]) -> Option<InPass>
    ensures broken { is_some result ≡ list_any (λ e. list_any (λ b. passes.moves_now (past history.now) (resource_at b)) (transition_bytes (past history.now) queue e)) elements.now }
    ensures written { IfSome result (λ m. IsTrue (list_any (λ e. list_any (λ b. resource_at b == m.resource) (transition_bytes (past history.now) queue e)) elements.now)) }
    ensures reported { IfSome result (IsInPass (past history.now)) }
{
    for element in elements {
        if let Some(found) = written_in_pass(history, written_by_element(history, queue, element)) {
            return Some(found);
        }
    }
    None
}

/// A resource, if there is one and a pass of its pool is open.
fn written_in_pass(history: &History<'_>, resource: Option<u32>) -> Option<InPass>
    ensures found { is_some result ≡ holds resource (passes.moves_now (past history.now)) }
    ensures same { IfSome result (λ m. IsTrue (holds resource (λ r. r == m.resource))) }
    ensures reported { IfSome result (IsInPass (past history.now)) }
{
    in_pass(history, resource?)
}

/// PASS_BUSY: a pass begins or ends while a submitted command that names a resource of its pool isn't
/// known complete. It looks at each resource that was created in the pool. The only error is want of
/// memory.
pub fn breaks_pass_busy(history: &History<'_>, point: &Point<'_>) -> Result<bool, AllocError>
    ensures { IfOk result (λ busy. busy ≡ passes.breaks_pass_busy (past history.now) (point_of point.now)) }
{
    let found = pass_busy_of(history, point)?;
    Ok(found.is_some())
}

/// PASS_BUSY: the first resource of the pool that is busy, where a point breaks the rule. The only error
/// is want of memory.
pub fn pass_busy_of(
    history: &History<'_>,
    point: &Point<'_>,
) -> Result<Option<BusyResident>, AllocError>
    ensures broken { IfOk result (λ found. is_some found ≡ passes.breaks_pass_busy (past history.now) (point_of point.now)) }
    ensures reported { IfOk result (λ found. IfSome found (IsBusyResident (past history.now) (point_of point.now))) }
{
    match point.action {
        Action::Host(entry) => busy_at(history, point, entry),
        _ => Ok(None),
    }
}

/// The same at an entry.
fn busy_at(
    history: &History<'_>,
    point: &Point<'_>,
    entry: &Entry,
) -> Result<Option<BusyResident>, AllocError>
    requires { action_of point.now.action ≡ Host entry.now }
    ensures broken { IfOk result (λ found. is_some found ≡ passes.passes_busy (past history.now) (point_of point.now) entry.now) }
    ensures reported { IfOk result (λ found. IfSome found (IsBusyResident (past history.now) (point_of point.now))) }
{
    let Some(pass) = passing_by(history, entry) else {
        return Ok(None);
    };
    let new_node = history.new_node(point)?;
    let residents = history.residents(pass.pool);
    match first_busy(history, point, entry, &new_node, pass.pool, residents) {
        Some(resource) => Ok(Some(BusyResident {
            defrag: pass.defrag,
            pool: pass.pool,
            resource,
        })),
        None => Ok(None),
    }
}

/// The pass that an entry begins or ends, of a defragmentation that hasn't ended.
fn passing_by(history: &History<'_>, entry: &Entry) -> Option<Passing>
    ensures pool { option_map (λ s. s.pool) result ≡ option_and_then (passes.pool_of_defrag (past history.now)) (passes.pass_of entry.now) }
    ensures reported { IfSome result (IsPassing (past history.now) entry.now) }
{
    let defrag = match entry {
        Entry::Pass { defrag } => *defrag,
        Entry::EndPass { defrag, .. } => *defrag,
        _ => return None,
    };
    let pool = history.defragmented(defrag)?;
    Some(Passing { defrag, pool })
}

/// The first of some resources that is live, in a pool, and busy at an entry that comes next.
fn first_busy(
    history: &History<'_>,
    point: &Point<'_>,
    entry: &Entry,
    new_node: &NewNode<'_>,
    pool: u32,
    resources: &[u32],
) -> Option<u32>
    requires entry { action_of point.now.action ≡ Host entry.now }
    requires new_node { IsNewNode (nodes (past history.now)) (next_node (past history.now) (point_of point.now) (Hosts entry.now)) new_node.now }
    ensures found { is_some result ≡ list_any (parts.is_resident_busy (past history.now) (point_of point.now) entry.now pool) resources.now }
    ensures busy { IfSome result (λ r. IsTrue (parts.is_resident_busy (past history.now) (point_of point.now) entry.now pool r)) }
{
    for resource in resources {
        if is_resident_busy(history, point, entry, new_node, pool, *resource) {
            return Some(*resource);
        }
    }
    None
}

/// Whether a resource is live, in a pool, and busy at an entry that comes next.
fn is_resident_busy(
    history: &History<'_>,
    point: &Point<'_>,
    entry: &Entry,
    new_node: &NewNode<'_>,
    pool: u32,
    resource: u32,
) -> bool
    requires entry { action_of point.now.action ≡ Host entry.now }
    requires new_node { IsNewNode (nodes (past history.now)) (next_node (past history.now) (point_of point.now) (Hosts entry.now)) new_node.now }
    ensures { result ≡ parts.is_resident_busy (past history.now) (point_of point.now) entry.now pool resource }
{
    is_live_resource(history, resource)
        && is_in_pool(history, pool, resource)
        && history.is_busy(resource, new_node)
}

fn is_in_pool(history: &History<'_>, pool: u32, resource: u32) -> bool
    ensures { result ≡ holds (pool_of (past history.now) resource) (λ s. pool == s) }
{
    match history.pool_of(resource) {
        Some(own) => pool == own,
        None => false,
    }
}

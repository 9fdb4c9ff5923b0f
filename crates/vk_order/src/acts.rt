ghost use Rattle.std.specs.Prelude.{◌≡◌, option_map};
ghost use Rattle.vk_model.specs.Basics.{holds, has_some};
ghost use Rattle.vk_model.specs.World.Ownership.{dependency_of};
ghost use Rattle.vk_model.specs.Sync.Edge as edge;
ghost use Rattle.vk_model.specs.Sync.Edge.{by_host, by_stages, by_signal, by_all_commands, pairs};
ghost use Rattle.vk_order.specs.NodeViews.{act_of, node_of};
ghost use Rattle.vk_order.specs.Edges.{unsignaled};

use crate::act::Act;
use bitflags::Flags;
use vk_model::{Element, Entry, Point, Stages};

/// The stages of clears and copies: ALL_COMMANDS has TRANSFER.
pub const TRANSFERS: Stages = Stages(Stages::TRANSFER.0 | Stages::ALL_COMMANDS.0);

impl Act<'_> {
    /// Whether it is an entry of the host.
    pub fn is_host(&self) -> bool
        ensures { result ≡ edge.is_host (act_of self.now) }
    {
        matches!(self, Act::Hosts(_))
    }

    /// Whether it is a submit.
    pub fn is_submit(&self) -> bool
        ensures { result ≡ edge.is_submit (act_of self.now) }
    {
        matches!(self, Act::Hosts(Entry::Submit { .. }))
    }

    fn is_command(&self) -> bool
        ensures { result ≡ edge.is_command (act_of self.now) }
    {
        matches!(self, Act::Runs(_))
    }

    fn is_element(&self) -> bool
        ensures { result ≡ edge.is_element (act_of self.now) }
    {
        matches!(self, Act::Barrier(_) | Act::Set(..) | Act::Await(..))
    }

    fn is_signal(&self) -> bool
        ensures { result ≡ edge.is_signal (act_of self.now) }
    {
        matches!(self, Act::Signals(_))
    }

    fn waits_for_all(&self) -> bool
        ensures { result ≡ edge.waits_for_all (act_of self.now) }
    {
        match self {
            Act::Waits(wait) => wait.stages.contains(Stages::ALL_COMMANDS),
            _ => false,
        }
    }

    /// Whether it is a signal with ALL_COMMANDS.
    pub fn signals_all(&self) -> bool
        ensures { result ≡ edge.signals_all (act_of self.now) }
    {
        match self {
            Act::Signals(signal) => signal.stages.contains(Stages::ALL_COMMANDS),
            _ => false,
        }
    }

    /// The stages of what comes before, where there are any.
    fn first_scope(&self) -> Option<Stages>
        ensures { option_map (λ s. s.0) result ≡ edge.first_scope (act_of self.now) }
    {
        match self {
            Act::Runs(_) => Some(Stages::TRANSFER),
            Act::Signals(signal) => Some(signal.stages),
            Act::Barrier(element) => Some(source_stages(element)),
            Act::Set(_, _, dependency) => Some(dependency.source_stages),
            _ => None,
        }
    }

    /// The stages of what comes after, where there are any.
    fn second_scope(&self) -> Option<Stages>
        ensures { option_map (λ s. s.0) result ≡ edge.second_scope (act_of self.now) }
    {
        match self {
            Act::Runs(_) => Some(Stages::TRANSFER),
            Act::Waits(wait) => Some(wait.stages),
            Act::Barrier(element) => Some(destination_stages(element)),
            Act::Await(_, _, dependency) => Some(dependency.destination_stages),
            _ => None,
        }
    }

    /// Whether this is an element of a set, and the other one that of its await.
    pub(crate) fn pairs_with(&self, other: &Act<'_>) -> bool
        ensures { result ≡ pairs (act_of self.now) (act_of other.now) }
    {
        match (self, other) {
            (Act::Set(event, k, _), Act::Await(awaited, l, _)) => *event == *awaited && *k == *l,
            _ => false,
        }
    }
}

/// The source stages of a dependency element.
pub fn source_stages(element: &Element) -> Stages
    ensures { result.0 ≡ (dependency_of element.now).source_stages.0 }
{
    match element {
        Element::Memory(dependency) => dependency.source_stages,
        Element::Buffer(buffer) => buffer.dependency.source_stages,
        Element::Image(image) => image.dependency.source_stages,
    }
}

/// The destination stages of a dependency element.
pub fn destination_stages(element: &Element) -> Stages
    ensures { result.0 ≡ (dependency_of element.now).destination_stages.0 }
{
    match element {
        Element::Memory(dependency) => dependency.destination_stages,
        Element::Buffer(buffer) => buffer.dependency.destination_stages,
        Element::Image(image) => image.dependency.destination_stages,
    }
}

/// Whether stages have one in common.
#[tactic(auto, unfolding(vk_model::specs::Sync::Edge::meet))]
fn meet(first: Stages, second: Stages) -> bool
    ensures { result ≡ edge.meet first.0 second.0 }
{
    first.intersects(TRANSFERS) && second.intersects(TRANSFERS)
        || first.intersects(Stages::HOST) && second.intersects(Stages::HOST)
}

/// What happens at a point, or one element of it.
#[derive(Clone, Copy)]
pub struct Row<'a> {
    /// The point that it is of.
    pub point: Point<'a>,
    /// What it does.
    pub act: Act<'a>,
}

impl Row<'_> {
    /// Whether an edge of any kind but by a semaphore leads from this node to the other.
    pub fn leads_to(&self, other: &Row<'_>) -> bool
        ensures { result ≡ unsignaled (node_of 0 self.now) (node_of 0 other.now) }
    {
        self.by_host(other)
            || self.by_stages(other)
            || self.by_signal(other)
            || self.by_all_commands(other)
            || self.act.pairs_with(&other.act)
    }

    fn by_host(&self, other: &Row<'_>) -> bool
        ensures { result ≡ by_host (node_of 0 self.now) (node_of 0 other.now) }
    {
        self.act.is_host() && other.act.is_host()
            || self.act.is_submit() && self.point.entry == other.point.entry
    }

    /// Whether it is a submit.
    pub fn is_submit(&self) -> bool
        ensures { result ≡ edge.is_submit (act_of self.now.act) }
    {
        self.act.is_submit()
    }

    fn on_queue_of(&self, other: &Row<'_>) -> bool
        ensures { result ≡ edge.same_queue (node_of 0 self.now) (node_of 0 other.now) }
    {
        !self.act.is_host() && !other.act.is_host() && self.point.queue == other.point.queue
    }

    fn is_sibling_of(&self, other: &Row<'_>) -> bool
        ensures { result ≡ edge.siblings (node_of 0 self.now) (node_of 0 other.now) }
    {
        self.act.is_element()
            && other.act.is_element()
            && self.point.entry == other.point.entry
            && self.point.batch == other.point.batch
            && self.point.place == other.point.place
    }

    fn scopes_meet(&self, other: &Row<'_>) -> bool
        ensures { result ≡ edge.scopes_meet (edge.second_scope (act_of self.now.act)) (edge.first_scope (act_of other.now.act)) }
    {
        match (self.act.second_scope(), other.act.first_scope()) {
            (Some(second), Some(first)) => meet(second, first),
            _ => false,
        }
    }

    fn by_stages(&self, other: &Row<'_>) -> bool
        ensures { result ≡ by_stages (node_of 0 self.now) (node_of 0 other.now) }
    {
        self.on_queue_of(other)
            && !self.is_sibling_of(other)
            && !(self.act.is_command() && other.act.is_command())
            && self.scopes_meet(other)
    }

    fn is_to_host(&self) -> bool
        ensures { result ≡ holds (edge.second_scope (act_of self.now.act)) (λ s. has_some s edge.host_stage) }
    {
        match self.act.second_scope() {
            Some(stages) => stages.intersects(Stages::HOST),
            None => false,
        }
    }

    fn by_signal(&self, other: &Row<'_>) -> bool
        ensures { result ≡ by_signal (node_of 0 self.now) (node_of 0 other.now) }
    {
        self.on_queue_of(other)
            && other.act.is_signal()
            && (self.act.is_signal() || self.act.is_element() && self.is_to_host())
    }

    fn by_all_commands(&self, other: &Row<'_>) -> bool
        ensures { result ≡ by_all_commands (node_of 0 self.now) (node_of 0 other.now) }
    {
        self.on_queue_of(other)
            && (self.act.is_element() && other.act.signals_all()
                || self.act.waits_for_all() && other.act.is_element())
    }
}

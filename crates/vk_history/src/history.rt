ghost use Rattle.std.specs.Prelude.{◌≡◌, ◌≤◌, ◌<◌, ◌+◌, ◌∷◌, ℕ, length, slice_get, nat_lt, not, Option, Some, None, IfOk, OnOk, IsTrue, max, is_some, option_and_then};
ghost use Rattle.std.specs.Option.{option_map};
ghost use Rattle.std.specs.List.{fold};
ghost use Rattle.vk_model.specs.Basics.{holds};
ghost use Rattle.vk_model.specs.Trace.Point.{Past, host_of};
ghost use Rattle.vk_model.specs.Trace.Objects.{made, ended, live, buffer, image, pool, memory, initial, type_at, type_of, memory_of, pool_of, pool_at};
ghost use Rattle.vk_model.specs.Trace.Order.{counter, signaled};
ghost use Rattle.vk_model.specs.Trace.Structure.{IsOrdered};
ghost use Rattle.vk_model.specs.World.ByteWrites.{buffer_size};
ghost use Rattle.vk_model.specs.Rules.Ids.{judged_in};
ghost use Rattle.vk_model.specs.Rules.Mapping.{is_mapped};
ghost use Rattle.vk_model.specs.Sync.Node.{nodes, acts};
ghost use Rattle.vk_model.specs.Trace.PointViews.{point_of, action_of};
ghost use Rattle.vk_order.specs.NodeViews.{act_of};
ghost use Rattle.vk_order.specs.Frontiers.{IsNewNode};
ghost use Rattle.vk_order.specs.Wide.{IsApartFrom};
ghost use Rattle.vk_queues.specs.PointViews.{past_of};
ghost use Rattle.vk_history.specs.PointViews.{past};
ghost use Rattle.vk_history.specs.Judged.{IsJudged};
ghost use Rattle.vk_history.specs.Ended.{first_end};
ghost use Rattle.vk_history.specs.Made.{last_creator, last_set, earlier_than};
ghost use Rattle.vk_touches.specs.Touched.{last_signaler, signal_spot, next_node, act_next};
ghost use Rattle.vk_touches.specs.Conflicts.{IsAccess};
ghost use Rattle.vk_history.specs.Contents.{AreContentsIn, AreBytesOf};
ghost use Rattle.vk_history.specs.Tabled.{spot_view, set_view, creator_view};

mod copies;
mod pools;
mod resources;

use crate::acts::act_of;
use crate::events::EventSet;
use crate::objects::Creator;
use crate::places::pool_at;
use crate::resource_contents::ResourceContents;
use crate::semaphores::Signals;
use crate::tables::{Tables, note};
use std::alloc::{AllocError, Global};
use std::marker::Model;
use vk_model::{Action, BufferInfo, Entry, ImageInfo, MemoryInfo, Place, Point, PoolInfo};
use vk_order::{Access, NewNode};
use vk_touches::ResourceAccess;

/// What has happened: the first `count` of the points, which break no rule. What the rules ask of it
/// is kept in tables.
#[derive(Drop)]
pub struct History<'a> {
    alloc: Global,
    points: &'a [Point<'a>],
    count: usize,
    tables: Tables<'a>,
}

impl<'a> Model for History<'a> {
    ghost use Rattle.std.specs.Prelude.{◌≤◌, length};
    ghost use Rattle.vk_history.specs.PointViews.{Walk, past};
    ghost use Rattle.vk_history.specs.Judged.{IsJudged};
    ghost use Rattle.vk_history.specs.Tabled.{IsTabled};

    ghost Value = { Walk };

    ghost view = { λ h. record { points = h.points.now; count = h.count } };

    ghost invariant = { λ h. (h.count ≤ length h.points.now) × IsTabled h.tables (past (record { points = h.points.now; count = h.count })) × IsJudged (past (record { points = h.points.now; count = h.count })) };
}

impl<'a> History<'a> {
    /// Before the first point.
    pub fn new(alloc: Global, points: &'a [Point<'a>]) -> History<'a>
        ensures { result ≡ record { points = points.now; count = 0 } }
    {
        History {
            alloc,
            points,
            count: 0,
            tables: Tables::new(alloc),
        }
    }

    /// The allocator of its tables.
    pub fn alloc(&self) -> Global {
        self.alloc
    }

    /// How many points have happened.
    pub fn count(&self) -> usize
        ensures count { result ≡ self.now.count }
        ensures within { self.now.count ≤ length self.now.points }
    {
        self.count
    }

    /// The points that have happened.
    #[tactic(auto, unfolding(crate::specs::PointViews::past))]
    pub fn happened(&self) -> &'a [Point<'a>]
        ensures { past_of result.now ≡ past self.now }
    {
        &self.points[..self.count]
    }

    /// What has happened was judged.
    pub fn is_judged(&self)
        ensures { IsJudged (past self.now) }
    {
        let _count: usize = self.count;
    }

    /// The last entry that made an id.
    fn creator(&self, id: u32) -> Option<Creator<'a>>
        ensures { option_map creator_view result ≡ last_creator (past self.now) id }
    {
        self.tables.objects.creator(id)
    }

    /// The entry that made an object.
    pub fn made(&self, id: u32) -> Option<&'a Entry>
        ensures { option_map (λ x. x.now) result ≡ made (past self.now) id }
    {
        self.tables.objects.made(id)
    }

    /// The entry that made an object, as the ids of a point are judged: those of a batch's points by
    /// the entries before its submit.
    fn made_for(&self, point: &Point<'_>, id: u32) -> Option<&'a Entry>
        requires { IsOrdered (point_of point.now ∷ past self.now) }
        ensures { option_map (λ x. x.now) result ≡ made (judged_in (past self.now) (point_of point.now)) id }
    {
        match point.action {
            Action::Host(_) => self.made(id),
            _ => {
                self.is_judged();
                self.made_before(point.entry, id)
            }
        }
    }

    /// The entry below a number that made an object.
    fn made_before(&self, number: usize, id: u32) -> Option<&'a Entry>
        ensures { option_map (λ x. x.now) result ≡ option_and_then (earlier_than number) (last_creator (past self.now) id) }
    {
        match self.creator(id) {
            Some(creator) if creator.number < number => Some(creator.entry),
            _ => None,
        }
    }

    /// The number of the first entry that ended an object.
    fn first_end(&self, id: u32) -> Option<usize>
        ensures { result ≡ first_end (past self.now) id }
    {
        self.tables.endings.first(id)
    }

    /// The entry that made an object that is live.
    pub fn live(&self, id: u32) -> Option<&'a Entry>
        ensures { option_map (λ x. x.now) result ≡ live (past self.now) id }
    {
        match self.first_end(id) {
            Some(_) => None,
            None => self.made(id),
        }
    }

    /// The same, as the ids of a point are judged.
    pub fn live_for(&self, point: &Point<'_>, id: u32) -> Option<&'a Entry>
        requires { IsOrdered (point_of point.now ∷ past self.now) }
        ensures { option_map (λ x. x.now) result ≡ live (judged_in (past self.now) (point_of point.now)) id }
    {
        if self.was_ended_for(point, id) {
            None
        } else {
            self.made_for(point, id)
        }
    }

    /// Whether an object had ended, as the ids of a point are judged.
    fn was_ended_for(&self, point: &Point<'_>, id: u32) -> bool
        requires { IsOrdered (point_of point.now ∷ past self.now) }
        ensures { result ≡ ended (judged_in (past self.now) (point_of point.now)) id }
    {
        match point.action {
            Action::Host(_) => self.first_end(id).is_some(),
            _ => self.was_ended_before(point.entry, id),
        }
    }

    /// Whether an entry below a number ended an object.
    fn was_ended_before(&self, number: usize, id: u32) -> bool
        ensures { result ≡ holds (first_end (past self.now) id) (λ n. nat_lt n number) }
    {
        match self.first_end(id) {
            Some(first) => first < number,
            None => false,
        }
    }

    /// What a buffer was made with.
    pub fn buffer(&self, id: u32) -> Option<&'a BufferInfo>
        ensures { option_map (λ x. x.now) result ≡ buffer (past self.now) id }
    {
        match self.made(id) {
            Some(Entry::Buffer { info, .. }) => Some(info),
            _ => None,
        }
    }

    /// What an image was made with.
    pub fn image(&self, id: u32) -> Option<&'a ImageInfo>
        ensures { option_map (λ x. x.now) result ≡ image (past self.now) id }
    {
        match self.made(id) {
            Some(Entry::Image { info, .. }) => Some(info),
            _ => None,
        }
    }

    /// What a pool was made with.
    pub fn pool(&self, id: u32) -> Option<&'a PoolInfo>
        ensures { option_map (λ x. x.now) result ≡ pool (past self.now) id }
    {
        match self.made(id) {
            Some(Entry::Pool { info, .. }) => Some(info),
            _ => None,
        }
    }

    /// What a memory object was made with.
    pub fn memory(&self, id: u32) -> Option<&'a MemoryInfo>
        ensures { option_map (λ x. x.now) result ≡ memory (past self.now) id }
    {
        match self.made(id) {
            Some(Entry::Memory { info, .. }) => Some(info),
            _ => None,
        }
    }

    /// The memory type of a place; none where its pool or memory object was never made.
    pub fn type_at(&self, place: Place) -> Option<u32>
        ensures { result ≡ type_at (past self.now) place }
    {
        self.tables.objects.type_at(place)
    }

    /// The pool of a place, as it was made.
    pub fn pool_for(&self, place: Place) -> Option<&'a PoolInfo>
        ensures { option_map (λ x. x.now) result ≡ option_and_then (pool (past self.now)) (pool_at place) }
    {
        match pool_at(place) {
            Some(id) => self.pool(id),
            None => None,
        }
    }

    /// The memory type of a resource.
    pub fn type_of(&self, id: u32) -> Option<u32>
        ensures { result ≡ type_of (past self.now) id }
    {
        self.tables.objects.type_of(id)
    }

    /// The pool that a resource is in.
    pub fn pool_of(&self, id: u32) -> Option<u32>
        ensures { result ≡ pool_of (past self.now) id }
    {
        self.tables.objects.pool_of(id)
    }

    /// The memory object that the trace bound a resource to.
    pub fn memory_of(&self, id: u32) -> Option<u32>
        ensures { result ≡ memory_of (past self.now) id }
    {
        self.tables.objects.memory_of(id)
    }

    /// The initial value of a semaphore.
    fn initial(&self, id: u32) -> Option<u64>
        ensures { result ≡ initial (past self.now) id }
    {
        match self.made(id) {
            Some(Entry::Semaphore { initial, .. }) => Some(*initial),
            _ => None,
        }
    }

    /// The value of a semaphore after all signals so far; none for what is no semaphore.
    #[tactic(auto, using(crate::proofs::Kept::PastLemmas::counters))]
    pub fn counter(&self, semaphore: u32) -> Option<u64>
        ensures { result ≡ counter (past self.now) semaphore }
    {
        match self.initial(semaphore) {
            Some(initial) => Some(initial.max(self.highest_value(semaphore))),
            None => None,
        }
    }

    /// The greatest value signaled to a semaphore.
    fn highest_value(&self, semaphore: u32) -> u64
        ensures { result ≡ fold max 0 (signaled (past self.now) semaphore) }
    {
        self.tables.semaphores.greatest(semaphore)
    }

    /// The last signal of a semaphore.
    pub fn last_signal(&self, semaphore: u32) -> Option<Signals>
        ensures { option_map spot_view result ≡ option_map (signal_spot (past self.now)) (last_signaler (past self.now) semaphore) }
    {
        self.tables.semaphores.last(semaphore)
    }

    /// How an event was set last.
    pub fn last_set(&self, event: u32) -> Option<EventSet<'a>>
        ensures { option_map set_view result ≡ last_set (past self.now) event }
    {
        self.tables.events.last_set(event)
    }

    /// Whether what is mapped with a resource is mapped.
    pub fn is_mapped(&self, resource: u32) -> bool
        ensures { result ≡ is_mapped (past self.now) resource }
    {
        let mapping = self.tables.objects.mapping(resource);
        self.tables.mappings.is_open(mapping)
    }

    /// The size of a buffer in bytes; 0 for what is no buffer.
    pub fn size(&self, buffer: u32) -> u64
        ensures { result ≡ buffer_size (past self.now) buffer }
    {
        match self.buffer(buffer) {
            Some(info) => info.size,
            None => 0,
        }
    }

    /// What is known of the bytes of a resource.
    pub fn contents(&self, resource: u32) -> Option<&ResourceContents>
        ensures { AreContentsIn (option_map (λ c. c.now) result) (past self.now) resource }
    {
        self.tables.contents.of(resource)
    }

    /// What the node of a point that comes next has before it, and what it sees.
    pub fn new_node(&self, point: &Point<'_>) -> Result<NewNode<'_>, AllocError>
        ensures { IfOk result (λ s. IsApartFrom (nodes (past self.now)) (next_node (past self.now) (point_of point.now) (act_next (action_of point.now.action)))
            → IsNewNode (nodes (past self.now)) (next_node (past self.now) (point_of point.now) (act_next (action_of point.now.action))) s) }
    {
        self.tables.frontier.new_node(point, &act_of(point))
    }

    /// How the node that comes next accesses a resource.
    pub fn access<'b>(
        &'b self,
        new_node: &'b NewNode<'b>,
        resource: u32,
        access: Access,
    ) -> ResourceAccess<'b>
        ensures access { IsAccess (past self.now) new_node.now result.bytes access result }
        ensures bytes { AreBytesOf (past self.now) resource result.bytes }
    {
        ResourceAccess {
            frontier: &self.tables.frontier,
            new_node,
            bytes: self.bytes(resource),
            access,
        }
    }

    /// Takes the next point, which breaks no rule. After an error the history begins anew.
    pub fn advance(&mut self, point: &Point<'a>) -> Result<(), AllocError>
        requires here { slice_get self.old.points self.old.count ≡ Some point.now }
        requires judged { IsJudged (point_of point.now ∷ past self.old) }
        ensures { OnOk result (self.new ≡ record self.old { count = self.old.count + 1 }) }
    {
        let points = self.points;
        match note(&mut self.tables, point) {
            Ok(()) => {
                self.count += 1;
                Ok(())
            }
            Err(error) => {
                *self = History::new(self.alloc, points);
                Err(error)
            }
        }
    }
}

ghost use Rattle.std.specs.Prelude.{◌≡◌, ◌<◌, ◌||◌, [], ℕ, Bool, IfOk, OnOk, OnErr, List, Contains, Some, length, map, slice_get};
ghost use Rattle.vk_model.specs.Sync.Node.{Node, acts, with_acts};
ghost use Rattle.vk_model.specs.Sync.Before.{before};
ghost use Rattle.vk_model.specs.Sync.Edge.{by_semaphore};
ghost use Rattle.vk_model.specs.Sync.Seen.{seen};
ghost use Rattle.vk_model.specs.World.Bytes as world;
ghost use Rattle.vk_model.specs.Trace.PointViews.{action_of, point_of};
ghost use Rattle.vk_order.specs.NodeViews.{act_of, node_of, nodes_after};
ghost use Rattle.vk_order.specs.Bytes.{byte_of};
ghost use Rattle.vk_order.specs.Wide.{access_of};
ghost use Rattle.vk_order.specs.declared.acts.Row.{Row as AnyRow};
ghost use Rattle.vk_order.specs.Edges.{unsignaled};
ghost use Rattle.vk_order.specs.Inner.Reaches.{Reaches};
ghost use Rattle.vk_order.specs.Queries.{led_to, IsNew};
ghost use Rattle.vk_model.specs.declared.point.Action.TheVariants.{Host};

use crate::acts::Row;
use crate::adding::stamped;
use crate::awaiting::{Reach, is_awaited, passed, reach_of};
use crate::before::is_before;
use crate::bytes::ByteAccess;
use crate::clocks::Stamp;
use crate::frontier::Frontier;
use crate::lines::Line;
use crate::rows::rows_of;
use crate::seen::is_seen;
use std::alloc::{AllocError, Global};
use std::marker::Model;
use vk_model::Point;

/// The points so far, and the order of their nodes: which node comes before which.
///
/// A node is a host entry, a wait or a signal of a batch, a clear or copy command, or one element
/// of a barrier, a set or an await. Nodes are known by their numbers, from 0 on, in the order in
/// which they came. Contracts see the nodes, the newest first.
#[derive(Drop)]
pub struct Points<'a> {
    alloc: Global,
    rows: Vec<Row<'a>>,
    stamps: Vec<Stamp>,
    lines: Vec<Line>,
    /// There is none once memory was wanting.
    frontier: Option<Frontier>,
}

impl<'a> Model for Points<'a> {
    ghost use Rattle.std.specs.Prelude.{List, []};
    ghost use Rattle.vk_model.specs.Sync.Node.{Node};
    ghost use Rattle.vk_order.specs.NodeViews.{nodes_after};

    ghost Value = { List Node };

    ghost view = { λ p. nodes_after [] p.rows.items };

    ghost use Rattle.vk_order.specs.Inner.Ready.{IsReady};

    ghost invariant = { λ p. IsReady p.rows.items p.stamps.items p.lines.items p.frontier };
}

#[tactic(auto, using(crate::proofs::RowLemmas::appended))]
impl<'a> Points<'a> {
    /// No points.
    pub fn new(alloc: Global) -> Points<'a>
        ensures { result ≡ [] }
    {
        Points {
            alloc,
            rows: Vec::new(alloc),
            stamps: Vec::new(alloc),
            lines: Vec::new(alloc),
            frontier: Some(Frontier::new(alloc)),
        }
    }

    /// How many nodes there are.
    pub fn len(&self) -> usize
        ensures { result ≡ length self.now }
    {
        self.rows.len()
    }

    /// Adds the nodes of a point that comes next. The only error is want of memory, which leaves
    /// the points as they were; after it each further one is refused in the same way.
    pub fn add(&mut self, point: Point<'a>) -> Result<(), AllocError>
        requires { IsNew (point_of point) self.old }
        ensures ok { OnOk result (self.new ≡ with_acts (point_of point.entry) (acts (action_of point.entry.action)) self.old) }
        ensures err { OnErr result (self.new ≡ self.old) }
    {
        let Some(mut frontier) = self.frontier.take() else {
            return Err(AllocError);
        };
        let mut rows = rows_of(self.alloc, point)?;
        let mut stamps = stamped(self.alloc, &mut frontier, rows.as_slice())?;
        let lines = frontier.lines()?;
        let count = self.stamps.len();
        self.stamps.append(&mut stamps)?;
        if let Err(error) = self.rows.append(&mut rows) {
            self.stamps.truncate(count);
            return Err(error);
        }
        self.lines = lines;
        self.frontier = Some(frontier);
        Ok(())
    }

    /// Whether one node comes before another in every allowed order. It compares two numbers; where
    /// the first is an element of a set, it walks over the nodes between.
    pub fn before(&self, first: usize, second: usize) -> bool
        requires first { first < length self.now }
        requires second { second < length self.now }
        ensures { (m n : Node) → Contains self.now m → Contains self.now n → m.number ≡ first → n.number ≡ second → result ≡ before self.now m n }
    {
        is_before(
            self.rows.as_slice(),
            self.stamps.as_slice(),
            self.lines.as_slice(),
            first,
            second,
        )
    }

    /// Whether an access of a byte by one node sees the write of it by another one: the write was
    /// made available, and then visible to it. The caller says whether the byte's memory is cached.
    /// It walks a few times over the nodes; where elements of sets make the write available, an
    /// element of an await and a signal with ALL_COMMANDS look at each of these. The only error is
    /// want of memory.
    pub fn seen(&self, writer: usize, reader: usize, access: ByteAccess) -> Result<bool, AllocError>
        requires writer { writer < length self.now }
        requires reader { reader < length self.now }
        ensures { IfOk result (λ sees. (cached : world.Byte → Bool) (w a : Node) → Contains self.now w → Contains self.now a → w.number ≡ writer → a.number ≡ reader → cached (byte_of access.byte) ≡ access.is_cached
            → sees ≡ seen cached self.now w a (access_of access.access) (byte_of access.byte)) }
    {
        let sees = is_seen(
            self.alloc,
            self.rows.as_slice(),
            self.stamps.as_slice(),
            self.lines.as_slice(),
            writer,
            reader,
            access,
        )?;
        Ok(sees)
    }

    /// The nodes to which a node leads by one edge, in order.
    pub fn edges(&self, node: usize) -> Result<Vec<usize>, AllocError>
        requires { node < length self.now }
        ensures { IfOk result (λ later. (m : Node) → Contains self.now m → m.number ≡ node → later.items ≡ led_to self.now m) }
    {
        edges_from(self.alloc, self.rows.as_slice(), node)
    }
}

/// The nodes to which a node leads by one edge, in order.
fn edges_from(alloc: Global, rows: &[Row<'_>], node: usize) -> Result<Vec<usize>, AllocError>
    requires { node < length rows.now }
    ensures { IfOk result (λ later. (m : Node) → Contains (nodes_after [] rows.now) m → m.number ≡ node → later.items ≡ led_to (nodes_after [] rows.now) m) }
{
    let from = rows[node];
    let mut reach = reach_of(&from.act);
    let mut later = Vec::new(alloc);
    for (number, row) in rows.iter().enumerate() {
        let leads = leads_to_next(&from, reach, row);
        if leads && node < number {
            later.push(number)?;
        }
        reach = passed(reach, &row.act);
    }
    Ok(later)
}

/// Whether a node leads by one edge to the one that comes next.
fn leads_to_next(from: &Row<'_>, reach: Option<Reach>, next: &Row<'_>) -> bool
    ensures { (ns : List Node) (i j : ℕ) → Reaches ns (node_of i from.now) reach
        → result ≡ (unsignaled (node_of i from.now) (node_of j next.now) || by_semaphore ns (node_of i from.now) (node_of j next.now)) }
{
    from.leads_to(next) || is_awaited(reach, &next.act)
}

ghost use Rattle.std.specs.Prelude.{◌≡◌, ◌∷◌, ◌||◌, ◌&&◌, ◌==◌, ◌<◌, [], ℕ, List, nat_lt, IfOk, OnOk, IsTrue, is_some, Some, length};
ghost use Rattle.vk_model.specs.World.Bytes as world;
ghost use Rattle.vk_model.specs.Sync.Node.{Node, acts, with_acts};
ghost use Rattle.vk_model.specs.Sync.Edge.{edge};
ghost use Rattle.vk_order.specs.declared.lines.Line.{Line as AnyLine};
ghost use Rattle.vk_model.specs.Trace.PointViews.{action_of, point_of};
ghost use Rattle.vk_order.specs.NodeViews.{act_of, node_of, nodes_after};
ghost use Rattle.vk_order.specs.Lines.{class_of, class_on, place, same_line};
ghost use Rattle.vk_order.specs.Queries.{IsNew};
ghost use Rattle.vk_order.specs.Wide.{IsApartFrom};
ghost use Rattle.vk_order.specs.Bytes.{byte_of};
ghost use Rattle.vk_order.specs.Inner.Leads.{line_leads};
ghost use Rattle.vk_order.specs.Inner.Links.{by_name};
ghost use Rattle.vk_order.specs.Inner.Places.{index_in};
ghost use Rattle.vk_order.specs.Inner.Fronts.{IsFront};
ghost use Rattle.vk_order.specs.Inner.Kept.{clock_at, IsLonger};
ghost use Rattle.vk_order.specs.Inner.Parts.{parts_at, AreParts, IsNewPart};
ghost use Rattle.vk_order.specs.Inner.Tallies.{lines_of, IsTallied, CanFollow, AreOnLines, AreFronts};
ghost use Rattle.vk_order.specs.Inner.Names.{IsNames};
ghost use Rattle.vk_order.specs.Frontiers.{IsFrontier, IsNewNode, IsFrom};

use crate::act::{Act, single_act};
use crate::acts::Row;
use crate::bytes::Byte;
use crate::clocks::count_at;
use crate::fronts::Front;
use crate::lines::Line;
use crate::names::Names;
use crate::new_node::NewNode;
use crate::owning::{heard, own_front};
use crate::parts::{Part, Parts, Spot};
use crate::rows::rows_of;
use crate::tallies::{
    LineTally, index_of_act, join_of, line_index, lines_copied, list_line, tally,
};
use std::alloc::{AllocError, Global};
use vk_model::Point;

/// What is known of the nodes so far, for those that come next: of each line how many there are,
/// and what comes after all of them; what comes after submits, signals and elements of sets, by
/// their names; and the elements that are limited to parts of resources. Its size grows with the
/// lines, the names and these elements, and not with the other nodes.
#[derive(Drop)]
pub struct Frontier {
    alloc: Global,
    nodes: u32,
    pub(crate) tallies: Vec<LineTally>,
    names: Names,
    parts: Parts,
    /// The front at hand: what a row that is added comes after, or one that is done with.
    pub(crate) front: Front,
}

impl Frontier {
    /// Before the first node.
    pub fn new(alloc: Global) -> Frontier
        ensures { IsFrontier result [] }
    {
        Frontier {
            alloc,
            nodes: 0,
            tallies: Vec::new(alloc),
            names: Names::new(alloc),
            parts: Parts::new(alloc),
            front: Front::new(alloc),
        }
    }

    /// How many nodes there are: the number of the next one.
    pub fn nodes(&self) -> usize
        ensures { (ns : List Node) → IsFrontier self.now ns → result ≡ length ns }
    {
        self.nodes as usize
    }

    /// How many nodes of a line there are: the place of the next one.
    pub fn count(&self, line: Line) -> usize
        ensures { (ns : List Node) → IsFrontier self.now ns → result ≡ place ns line (length ns) }
    {
        self.next_place(line) as usize
    }

    /// The same in the width of a stamp.
    pub(crate) fn next_place(&self, line: Line) -> u32
        ensures { (ns : List Node) → IsFrontier self.now ns → result ≡ place ns line (length ns) }
    {
        match line_index(self.tallies.as_slice(), line) {
            Some(at) => self.tallies[at].count,
            None => 0,
        }
    }

    /// What a node that comes next, with this act, has before it and sees.
    pub fn new_node(&self, point: &Point<'_>, act: &Act<'_>) -> Result<NewNode<'_>, AllocError>
        ensures from_here { IfOk result (λ s. IsFrom self.now s) }
        ensures new_node { IfOk result (λ s. (ns : List Node) (n : Node) → IsFrontier self.now ns → n ≡ record { number = length ns; point = point_of point.now; act = act_of act.now } → IsApartFrom ns n → IsNewNode ns n s) }
    {
        let row = Row {
            point: *point,
            act: *act,
        };
        let front = self.front_of(&row)?;
        let tallies = self.tallies.as_slice();
        Ok(NewNode::new(tallies, front, act.is_host(), point.queue))
    }

    /// The lines so far.
    pub(crate) fn lines(&self) -> Result<Vec<Line>, AllocError>
        ensures { IfOk result (λ lines. lines.items ≡ lines_of self.now.tallies.items) }
    {
        let lines = lines_copied(self.alloc, self.tallies.as_slice())?;
        Ok(lines)
    }

    /// What comes after the nodes that lead to a row that comes next.
    fn front_of(&self, row: &Row<'_>) -> Result<Front, AllocError>
        ensures { IfOk result (λ f. (ns : List Node) (j : ℕ) → IsFrontier self.now ns
            → IsFront ns (lines_of self.now.tallies.items) (λ k. line_leads row.now.point.queue (act_of row.now.act) (class_of k) || by_name ns k (node_of j row.now)) f) }
    {
        let mut front = Front::new(self.alloc);
        find_front(&mut front, self.tallies.as_slice(), &self.names, row)?;
        Ok(front)
    }

    /// Adds the nodes of a point that comes next. The only error is want of memory, or of numbers
    /// for nodes; what comes after it isn't said then.
    pub fn advance(&mut self, point: &Point<'_>) -> Result<(), AllocError>
        ensures { OnOk result ((ns : List Node) → IsNew (point_of point.now) ns → IsFrontier self.old ns → IsFrontier self.new (with_acts (point_of point.now) (acts (action_of point.now.action)) ns)) }
    {
        match single_act(point.action) {
            Some(act) => {
                self.add_single(&Row { point: *point, act })?;
                Ok(())
            }
            None => self.add_point(point),
        }
    }

    /// Adds a row that comes next, the only one of its point.
    fn add_single(&mut self, row: &Row<'_>) -> Result<(), AllocError>
        ensures { OnOk result ((ns : List Node) → CanFollow ns (row.now ∷ []) → IsFrontier self.old ns → IsFrontier self.new (node_of (length ns) row.now ∷ ns)) }
    {
        let at = self.find_row(row)?;
        self.add_at(row, at)?;
        Ok(())
    }

    /// Makes the front at hand what a row that comes next comes after, the only one of its point, and
    /// answers the index of its line.
    pub(crate) fn find_row(&mut self, row: &Row<'_>) -> Result<usize, AllocError>
        ensures listed { IfOk result (λ at. index_in (lines_of self.new.tallies.items) (class_on row.now.point.queue (act_of row.now.act)) ≡ Some at) }
        ensures kept { OnOk result ((ns : List Node) → IsFrontier self.old ns → IsFrontier self.new ns) }
        ensures front { OnOk result ((ns : List Node) → CanFollow ns (row.now ∷ []) → IsFrontier self.old ns → IsFront ns (lines_of self.new.tallies.items) (λ k. edge ns k (node_of (length ns) row.now)) self.new.front) }
    {
        let at = self.list_row(row)?;
        find_front(&mut self.front, self.tallies.as_slice(), &self.names, row)?;
        Ok(at)
    }

    /// Adds the nodes of a point that comes next.
    fn add_point(&mut self, point: &Point<'_>) -> Result<(), AllocError>
        ensures { OnOk result ((ns : List Node) → IsNew (point_of point.now) ns → IsFrontier self.old ns → IsFrontier self.new (with_acts (point_of point.now) (acts (action_of point.now.action)) ns)) }
    {
        let rows = rows_of(self.alloc, *point)?;
        self.list(rows.as_slice())?;
        let fronts = self.fronts_of(rows.as_slice())?;
        self.add_all(rows.as_slice(), fronts.as_slice())?;
        Ok(())
    }

    /// Lists the lines of rows.
    pub(crate) fn list(&mut self, rows: &[Row<'_>]) -> Result<(), AllocError>
        ensures listed { OnOk result (AreOnLines (lines_of self.new.tallies.items) rows.now) }
        ensures kept { OnOk result ((ns : List Node) → IsFrontier self.old ns → IsFrontier self.new ns) }
        ensures longer { OnOk result (IsLonger (lines_of self.old.tallies.items) (lines_of self.new.tallies.items)) }
    {
        for row in rows {
            self.list_line(Line::of(row.point.queue, &row.act))?;
        }
        Ok(())
    }

    /// Lists the line of a row. Answers its index.
    fn list_row(&mut self, row: &Row<'_>) -> Result<usize, AllocError>
        ensures listed { IfOk result (λ at. index_in (lines_of self.new.tallies.items) (class_on row.now.point.queue (act_of row.now.act)) ≡ Some at) }
        ensures kept { OnOk result ((ns : List Node) → IsFrontier self.old ns → IsFrontier self.new ns) }
        ensures longer { OnOk result (IsLonger (lines_of self.old.tallies.items) (lines_of self.new.tallies.items)) }
    {
        if let Some(at) = index_of_act(self.tallies.as_slice(), row.point.queue, &row.act) {
            return Ok(at);
        }
        let at = self.list_line(Line::of(row.point.queue, &row.act))?;
        Ok(at)
    }

    /// Lists a line. Answers its index.
    fn list_line(&mut self, line: Line) -> Result<usize, AllocError>
        ensures listed { IfOk result (λ at. index_in (lines_of self.new.tallies.items) line ≡ Some at) }
        ensures others { OnOk result ((l : AnyLine) → IsTrue (is_some (index_in (lines_of self.old.tallies.items) l)) → IsTrue (is_some (index_in (lines_of self.new.tallies.items) l))) }
        ensures kept { OnOk result ((ns : List Node) → IsFrontier self.old ns → IsFrontier self.new ns) }
        ensures longer { OnOk result (IsLonger (lines_of self.old.tallies.items) (lines_of self.new.tallies.items)) }
    {
        let at = list_line(self.alloc, &mut self.tallies, line)?;
        Ok(at)
    }

    /// What comes after the nodes that lead to rows that come next, each by itself.
    pub(crate) fn fronts_of(&self, rows: &[Row<'_>]) -> Result<Vec<Front>, AllocError>
        ensures lengths { IfOk result (λ fronts. length fronts.items ≡ length rows.now) }
        ensures fronts { IfOk result (λ fronts. (ns : List Node) → IsFrontier self.now ns → AreFronts ns (lines_of self.now.tallies.items) rows.now fronts.items) }
    {
        let mut fronts = Vec::new(self.alloc);
        for row in rows {
            let front = self.front_of(row)?;
            fronts.push(front)?;
        }
        Ok(fronts)
    }

    /// Adds rows that come next, with what each comes after.
    fn add_all(&mut self, rows: &[Row<'_>], fronts: &[Front]) -> Result<(), AllocError>
        requires lengths { length fronts.now ≡ length rows.now }
        requires listed { AreOnLines (lines_of self.old.tallies.items) rows.now }
        ensures { OnOk result ((ns : List Node) → CanFollow ns rows.now → AreFronts ns (lines_of self.old.tallies.items) rows.now fronts.now → IsFrontier self.old ns → IsFrontier self.new (nodes_after ns rows.now)) }
    {
        for (index, row) in rows.iter().enumerate() {
            let front = fronts[index].copied(self.alloc)?;
            self.add(row, front)?;
        }
        Ok(())
    }

    /// Adds a row that comes next, with what it comes after.
    pub(crate) fn add(&mut self, row: &Row<'_>, front: Front) -> Result<(), AllocError>
        requires { IsTrue (is_some (index_in (lines_of self.old.tallies.items) (class_on row.now.point.queue (act_of row.now.act)))) }
        ensures lines { OnOk result (lines_of self.new.tallies.items ≡ lines_of self.old.tallies.items) }
        ensures kept { OnOk result ((ns : List Node) (n : Node) → n ≡ node_of (length ns) row.now → IsFront ns (lines_of self.old.tallies.items) (λ k. edge ns k n) front → IsFrontier self.old ns → IsFrontier self.new (n ∷ ns)) }
    {
        let line = Line::of(row.point.queue, &row.act);
        let Some(at) = line_index(self.tallies.as_slice(), line) else {
            unreachable!()
        };
        self.front = front;
        self.add_at(row, at)?;
        Ok(())
    }

    /// The same at the index of its line, where the front at hand is what it comes after.
    pub(crate) fn add_at(&mut self, row: &Row<'_>, at: usize) -> Result<(), AllocError>
        requires { index_in (lines_of self.old.tallies.items) (class_on row.now.point.queue (act_of row.now.act)) ≡ Some at }
        ensures lines { OnOk result (lines_of self.new.tallies.items ≡ lines_of self.old.tallies.items) }
        ensures kept { OnOk result ((ns : List Node) (n : Node) → n ≡ node_of (length ns) row.now → IsFront ns (lines_of self.old.tallies.items) (λ k. edge ns k n) self.old.front → IsFrontier self.old ns → IsFrontier self.new (n ∷ ns)) }
    {
        let Some(nodes) = self.nodes.checked_add(1) else {
            return Err(AllocError);
        };
        self.keep_part(row)?;
        own_front(self.tallies.as_slice(), row, at, &mut self.front)?;
        self.names.add(self.alloc, row, &self.front)?;
        tally(&mut self.tallies, at, &mut self.front)?;
        self.nodes = nodes;
        Ok(())
    }

    /// Keeps a row that comes next, where it is a dependency on a part of memory.
    fn keep_part(&mut self, row: &Row<'_>) -> Result<(), AllocError>
        ensures nodes { OnOk result (self.new.nodes ≡ self.old.nodes) }
        ensures tallies { OnOk result (self.new.tallies ≡ self.old.tallies) }
        ensures names { OnOk result (self.new.names ≡ self.old.names) }
        ensures front { OnOk result (self.new.front ≡ self.old.front) }
        ensures parts { OnOk result ((ns : List Node) (n : Node) → n ≡ node_of (length ns) row.now → IsFront ns (lines_of self.old.tallies.items) (λ k. edge ns k n) self.old.front → IsFrontier self.old ns → AreParts (n ∷ ns) (lines_of self.old.tallies.items) self.new.parts) }
    {
        if !row.act.is_limited() {
            return Ok(());
        }
        let part = self.new_part(row, &self.front)?;
        self.parts.keep(self.alloc, part)?;
        Ok(())
    }

    /// What is kept of a row that comes next, where it is a dependency on a part of memory.
    pub(crate) fn new_part(
        &self,
        row: &Row<'_>,
        front: &Front,
    ) -> Result<Option<(u32, Part)>, AllocError>
        ensures { IfOk result (λ part. (ns : List Node) (n : Node) → n ≡ node_of (length ns) row.now → IsFront ns (lines_of self.now.tallies.items) (λ k. edge ns k n) front.now → IsFrontier self.now ns → IsNewPart ns (lines_of self.now.tallies.items) n part) }
    {
        let Some((id, element)) = row.act.limited() else {
            return Ok(None);
        };
        let heard = heard(self.alloc, self.tallies.as_slice(), front.counts.as_slice())?;
        let queue = row.point.queue;
        let line = Line::of(queue, &row.act);
        let part = Part {
            element,
            number: self.nodes as usize,
            queue,
            line,
            place: self.count(line),
            earlier: self.count(Line::Commands(queue)),
            heard,
        };
        Ok(Some((id, part)))
    }

    /// The parts of the resource of a byte.
    pub(crate) fn parts_of(&self, byte: Byte) -> &[Part]
        ensures { result.now ≡ parts_at self.now.parts (world.resource_at (byte_of byte)) }
    {
        self.parts_on(byte.resource())
    }

    /// The dependencies on parts of a resource.
    pub(crate) fn parts_on(&self, resource: u32) -> &[Part]
        ensures { result.now ≡ parts_at self.now.parts resource }
    {
        self.parts.of(resource)
    }

    /// Whether what a node marks is known at a part, or it is the part itself.
    pub(crate) fn reaches(&self, part: &Part, spot: Spot) -> bool
        ensures { result ≡ (nat_lt spot.place (clock_at (lines_of self.now.tallies.items) part.now.heard.items spot.line) || same_line part.now.line spot.line && part.now.place == spot.place) }
    {
        spot.place < self.heard(part, spot.line) as usize
            || part.line.is(spot.line) && part.place == spot.place
    }

    /// How many nodes of a line are known at a part.
    fn heard(&self, part: &Part, line: Line) -> u32
        ensures { result ≡ clock_at (lines_of self.now.tallies.items) part.now.heard.items line }
    {
        let Some(at) = line_index(self.tallies.as_slice(), line) else {
            return 0;
        };
        count_at(part.heard.as_slice(), at)
    }
}

/// Makes a front what comes after the nodes that lead to a row that comes next, whatever it was.
fn find_front(
    front: &mut Front,
    tallies: &[LineTally],
    names: &Names,
    row: &Row<'_>,
) -> Result<(), AllocError>
    ensures { OnOk result ((ns : List Node) (j : ℕ) → IsTallied ns tallies.now → IsNames ns (lines_of tallies.now) names.now
        → IsFront ns (lines_of tallies.now) (λ k. line_leads row.now.point.queue (act_of row.now.act) (class_of k) || by_name ns k (node_of j row.now)) front.new) }
{
    join_of(front, tallies, row)?;
    names.join_names(front, row)?;
    Ok(())
}

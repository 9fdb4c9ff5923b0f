ghost use Rattle.std.specs.Prelude.{◌≡◌, ◌∷◌, ◌<◌, ◌≤◌, ◌||◌, ◌↔◌, ℕ, Bool, List, true, IsTrue, Contains, Some, false, if◌then◌else◌, length, nat_lt};
ghost use Rattle.vk_model.specs.World.Bytes as world;
ghost use Rattle.vk_model.specs.Sync.Node.{Node};
ghost use Rattle.vk_model.specs.Sync.Edge.{edge, is_command, is_host};
ghost use Rattle.vk_model.specs.Sync.Before.{before};
ghost use Rattle.vk_model.specs.Sync.Seen.{seen};
ghost use Rattle.vk_order.specs.declared.lines.Line.TheVariants.{Host as OfHost, Commands as OfCommands};
ghost use Rattle.vk_order.specs.declared.lines.Line.{Line as AnyLine};
ghost use Rattle.vk_order.specs.Bytes.{byte_of};
ghost use Rattle.vk_order.specs.Lines.{line_of, place};
ghost use Rattle.vk_order.specs.Wide.{access_of, AreWide, is_answered};
ghost use Rattle.vk_order.specs.Inner.Counts.{count_in, counts_on};
ghost use Rattle.vk_order.specs.Inner.Rows.{Visible, OnHost, KnowsOne};
ghost use Rattle.vk_order.specs.Inner.Parts.{IsPart, asked_of, opens};
ghost use Rattle.vk_order.specs.Inner.Tallies.{lines_of};
ghost use Rattle.vk_order.specs.Frontiers.{IsNewNode};

use crate::access::Access;
use crate::bytes::Byte;
use crate::counts::{Counts, counts_at};
use crate::fronts::Front;
use crate::lines::Line;
use crate::parts::{Part, Spot};
use crate::tallies::{LineTally, line_index};

/// What a node that comes next has before it, and what it sees.
#[derive(Drop)]
pub struct NewNode<'a> {
    is_host: bool,
    queue: u32,
    tallies: &'a [LineTally],
    front: Front,
}

impl<'a> NewNode<'a> {
    /// A new node from what is known of the lines so far and its front.
    pub(crate) fn new(
        tallies: &'a [LineTally],
        front: Front,
        is_host: bool,
        queue: u32,
    ) -> NewNode<'a>
        ensures tallies { result.tallies.now ≡ tallies.now }
        ensures front { result.front ≡ front }
        ensures is_host { result.is_host ≡ is_host }
        ensures queue { result.queue ≡ queue }
    {
        NewNode {
            is_host,
            queue,
            tallies,
            front,
        }
    }

    /// What the node comes after.
    pub(crate) fn front(&self) -> &Front
        ensures { result.now ≡ self.now.front }
    {
        &self.front
    }

    /// Whether the node comes after the one of a line before which this many came in it.
    pub fn follows(&self, line: Line, earlier: usize) -> bool
        ensures { (ns : List Node) (n m : Node) → IsNewNode ns n self.now → Contains ns m → line_of m ≡ Some line → place ns line m.number ≡ earlier → result ≡ before (n ∷ ns) m n }
    {
        earlier < self.counts(line).clock as usize
    }

    /// How many commands of a queue are before the node: the first ones of the queue.
    pub fn commands_before(&self, queue: u32) -> usize
        ensures first { (ns : List Node) (n m : Node) → IsNewNode ns n self.now → Contains ns m → line_of m ≡ Some (OfCommands queue) → before (n ∷ ns) m n ≡ nat_lt (place ns (OfCommands queue) m.number) result }
        ensures there { (ns : List Node) (n : Node) → IsNewNode ns n self.now → result ≤ place ns (OfCommands queue) (length ns) }
    {
        self.counts_of_commands(queue).clock as usize
    }

    /// Whether an access of this kind by the node sees the writes of the command of a queue before
    /// which this many came on it. It is asked where all dependencies are on all memory.
    pub fn sees(&self, queue: u32, earlier: usize, access: Access) -> bool
        ensures { (ns : List Node) (n m : Node) (cached : world.Byte → Bool) (b : world.Byte) → IsNewNode ns n self.now → Contains ns m → line_of m ≡ Some (OfCommands queue) → place ns (OfCommands queue) m.number ≡ earlier
            → AreWide (n ∷ ns) → IsTrue (is_answered cached n.act (access_of access) b) → result ≡ seen cached (n ∷ ns) m n (access_of access) b }
    {
        earlier < self.known(Line::Commands(queue), access)
    }

    /// Whether an access of this kind by the node sees the writes of the host entry before which
    /// this many came. It is asked where all dependencies are on all memory, of a byte that the host
    /// reaches without a cache.
    pub fn sees_host(&self, earlier: usize, access: Access) -> bool
        ensures { (ns : List Node) (n m : Node) (cached : world.Byte → Bool) (b : world.Byte) → IsNewNode ns n self.now → Contains ns m → line_of m ≡ Some OfHost → place ns OfHost m.number ≡ earlier
            → AreWide (n ∷ ns) → IsTrue (is_answered cached n.act (access_of access) b) → cached b ≡ false → result ≡ seen cached (n ∷ ns) m n (access_of access) b }
    {
        earlier < self.known(Line::Host, access)
    }

    /// Whether what a node wrote is known at one that serves all memory and makes it visible to an
    /// access by this node, a command or a host entry.
    pub(crate) fn shows(&self, spot: Spot, access: Access) -> bool
        ensures { (ns : List Node) (n m : Node) → IsNewNode ns n self.now → Contains ns m → line_of m ≡ Some spot.line → place ns spot.line m.number ≡ spot.place → (is_command n.act || is_host n.act) ≡ true
            → IsTrue result ↔ KnowsOne (asked_of n.act (access_of access)) ns (λ q. edge ns q n) m }
    {
        spot.place < self.known(spot.line, access)
    }

    /// Whether a dependency on a part of memory makes a byte visible to an access by this node, a
    /// command or a host entry.
    pub(crate) fn is_open(&self, part: &Part, byte: Byte, access: Access) -> bool
        ensures { (ns : List Node) (ls : List AnyLine) (n q : Node) (cached : world.Byte → Bool) → IsNewNode ns n self.now → IsPart ns ls q part.now → (is_command n.act || is_host n.act) ≡ true
            → result ≡ opens cached ns n n.act (access_of access) (byte_of byte) q }
    {
        if self.is_host {
            self.follows(part.line, part.place) && part.shows_on_host(access, byte)
        } else {
            part.line.ends_in_transfer(self.queue) && part.makes_visible(access.of_commands(), byte)
        }
    }

    /// How many nodes of a line have their writes known to the node by what answers for an access.
    pub(crate) fn known(&self, line: Line, access: Access) -> usize
        ensures { result ≡ count_in (if self.now.is_host then OnHost (access_of access) else Visible (access_of access)) (counts_on (lines_of self.now.tallies.now) self.now.front.counts.items line) }
    {
        let counts = self.counts(line);
        let known = match (self.is_host, access) {
            (false, Access::Read) => counts.reads,
            (false, Access::Write) => counts.writes,
            (true, Access::Read) => counts.host_reads,
            (true, Access::Write) => counts.host_writes,
        };
        known as usize
    }

    /// The counts for the commands of a queue.
    fn counts_of_commands(&self, queue: u32) -> Counts
        ensures { result ≡ counts_on (lines_of self.now.tallies.now) self.now.front.counts.items (OfCommands queue) }
    {
        match line_index(self.tallies, Line::Commands(queue)) {
            Some(at) => counts_at(self.front.counts.as_slice(), at),
            None => Counts::zero(),
        }
    }

    /// The counts for a line.
    fn counts(&self, line: Line) -> Counts
        ensures { result ≡ counts_on (lines_of self.now.tallies.now) self.now.front.counts.items line }
    {
        match line_index(self.tallies, line) {
            Some(at) => counts_at(self.front.counts.as_slice(), at),
            None => Counts::zero(),
        }
    }
}

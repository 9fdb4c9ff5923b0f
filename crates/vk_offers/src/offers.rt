ghost use Rattle.std.specs.Prelude.{◌≡◌, ◌∷◌, ◌<◌, [], List, length, map, IfOk, OnOk, IfSome, IfNone, Some, slice_get, Contains, true, false};
ghost use Rattle.vk_model.specs.Trace.Point.{Past, Run};
ghost use Rattle.vk_model.specs.Sync.Node.{Node, nodes};
ghost use Rattle.vk_model.specs.Run.Runs.{Name, offered};
ghost use Rattle.vk_model.specs.Trace.PointViews.{point_of};
ghost use Rattle.vk_sync.specs.Ready.{ready};
ghost use Rattle.vk_order.specs.Frontiers.{IsNewNode};
ghost use Rattle.vk_offers.specs.IsOffers.{IsOffers, ComesNext, IsPieceOf, name_of, host_node, is_free_next, CountsBefore};
ghost use Rattle.vk_offers.specs.IsOffers.{is_run};
ghost use Rattle.vk_offers.specs.Inner.Starting.{StartReady, Starts, Passes};
ghost use Rattle.vk_offers.specs.IsOffers.{is_run_in_pieces};

use std::alloc::{AllocError, Global};
use vk_model::{Action, Cmd, Entry, Point, before_is_order, growth_keeps};
use vk_order::{Act, Frontier, NewNode, commands_follow};
use vk_sync::{Piece, Ready};

/// The points so far, as far as they decide what may run next: the commands that were started,
/// which of their pieces have run, and what is before what.
#[derive(Drop)]
pub struct Offers<'a> {
    pub(crate) alloc: Global,
    pub(crate) frontier: Frontier,
    commands: Vec<&'a Cmd>,
    pub(crate) ready: Ready,
}

impl<'a> Offers<'a> {
    /// No points.
    pub fn new(alloc: Global) -> Offers<'a>
        ensures { IsOffers result [] [] }
    {
        Offers {
            alloc,
            frontier: Frontier::new(alloc),
            commands: Vec::new(alloc),
            ready: Ready::new(alloc),
        }
    }

    /// The next point has come. `pieces` is how many pieces it is run in, where it is a clear or a
    /// copy. The only error is want of memory, or of numbers; what comes after it isn't said then.
    pub fn add(&mut self, point: &Point<'a>, pieces: u64) -> Result<(), AllocError>
        requires { (past : Past) × (done : List Name) × IsOffers self.old past done × ComesNext past (point_of point.now) pieces }
        ensures { OnOk result ((past : Past) (done : List Name) → IsOffers self.old past done → ComesNext past (point_of point.now) pieces → IsOffers self.new (point_of point.now ∷ past) done) }
    {
        match run_at(point) {
            Some(command) => self.start(point, command, pieces),
            None => self.pass(point),
        }
    }

    /// A point that isn't run in pieces has come.
    fn pass(&mut self, point: &Point<'a>) -> Result<(), AllocError>
        ensures { OnOk result (Passes self.old self.new (point_of point.now)) }
    {
        growth_keeps();
        before_is_order();
        self.frontier.advance(point)
    }

    /// A clear or a copy has come: its pieces are left.
    fn start(&mut self, point: &Point<'a>, command: &'a Cmd, pieces: u64) -> Result<(), AllocError>
        requires { StartReady self.old (point_of point.now) command.now pieces }
        ensures { OnOk result (Starts self.old self.new (point_of point.now) command.now pieces) }
    {
        growth_keeps();
        before_is_order();
        commands_follow();
        let before = self.frontier.add_command(point, command)?;
        self.commands.push(command)?;
        self.ready.add(point.queue, before, pieces)
    }

    /// How many pieces may run next.
    pub fn count(&self) -> u64
        ensures ready { result ≡ length (ready self.now.ready) }
        ensures named { (past : Past) (done : List Name) → IsOffers self.now past done → result ≡ length (offered past done) }
    {
        self.ready.count()
    }

    /// A piece that may run next, by its place in reference order.
    pub fn nth(&self, place: u64) -> Piece
        requires { place < length (ready self.now.ready) }
        ensures ready { Contains (ready self.now.ready) result }
        ensures named { (past : Past) (done : List Name) → IsOffers self.now past done → slice_get (offered past done) place ≡ Some (name_of past result) }
    {
        self.ready.nth(place)
    }

    /// All pieces that may run next, in reference order.
    pub fn offered(&self) -> Result<Vec<Piece>, AllocError>
        ensures ready { IfOk result (λ pieces. pieces.items ≡ ready self.now.ready) }
        ensures named { IfOk result (λ pieces. (past : Past) (done : List Name) → IsOffers self.now past done → map (name_of past) pieces.items ≡ offered past done) }
    {
        self.ready.ready()
    }

    /// The command that a piece is of.
    pub fn command(&self, piece: Piece) -> &'a Cmd
        requires ready { Contains (ready self.now.ready) piece }
        requires known { (past : Past) × (done : List Name) × IsOffers self.now past done }
        ensures { (past : Past) (done : List Name) → IsOffers self.now past done → IsPieceOf past piece result.now }
    {
        match self.commands.as_slice().get(piece.command) {
            Some(command) => command,
            None => unreachable!(),
        }
    }

    /// A piece that might run has run.
    pub fn finish(&mut self, piece: Piece)
        requires { Contains (ready self.old.ready) piece }
        ensures { (past : Past) (done : List Name) → IsOffers self.old past done → IsOffers self.new past (name_of past piece ∷ done) }
    {
        self.ready.finish(piece);
    }

    /// How many commands of each queue are before an entry of the host that comes next.
    pub fn before(&self, number: usize, entry: &'a Entry) -> Result<[usize; 4], AllocError>
        ensures { IfOk result (λ counts. (past : Past) (done : List Name) → IsOffers self.now past done → CountsBefore (host_node past number entry.now ∷ nodes past) (host_node past number entry.now) counts) }
    {
        let point = Point {
            entry: number,
            batch: 0,
            place: 0,
            queue: 0,
            action: Action::Host(entry),
        };
        let new_node = self.frontier.new_node(&point, &Act::Hosts(entry))?;
        Ok(commands_before(&new_node))
    }

    /// Whether all pieces of the first so many commands of each queue have run.
    pub fn is_met(&self, before: [usize; 4]) -> bool
        requires { (past : Past) × (done : List Name) × (h : Node) × IsOffers self.now past done × (h.number ≡ length (nodes past)) × CountsBefore (h ∷ nodes past) h before }
        ensures { (past : Past) (done : List Name) (h : Node) → IsOffers self.now past done → h.number ≡ length (nodes past) → CountsBefore (h ∷ nodes past) h before → result ≡ is_free_next past done h }
    {
        self.ready.is_met(before)
    }
}

/// The command of a point that is run in pieces: all are but barriers, sets and awaits.
pub fn run_at<'a>(point: &Point<'a>) -> Option<&'a Cmd>
    ensures some { IfSome result (λ c. ((point_of point.now).action ≡ Run c.now) × (is_run c.now ≡ true)) }
    ensures none { IfNone result (is_run_in_pieces (point_of point.now).action ≡ false) }
{
    match point.action {
        Action::Run(Cmd::Barrier { .. } | Cmd::Set { .. } | Cmd::Await { .. }) => None,
        Action::Run(command) => Some(command),
        _ => None,
    }
}

/// How many commands of each queue are before the node that comes next.
pub(crate) fn commands_before(new_node: &NewNode<'_>) -> [usize; 4]
    ensures { (ns : List Node) (n : Node) → IsNewNode ns n new_node.now → CountsBefore (n ∷ ns) n result }
{
    before_is_order();
    [
        new_node.commands_before(0),
        new_node.commands_before(1),
        new_node.commands_before(2),
        new_node.commands_before(3),
    ]
}

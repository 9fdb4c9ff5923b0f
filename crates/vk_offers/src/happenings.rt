ghost use Rattle.std.specs.Prelude.{◌≡◌, ◌≤◌, ◌<◌, ◌∷◌, ◌++◌, [], List, length, OnOk, IfSome, IfNone, Contains};
ghost use Rattle.vk_model.specs.Trace.Point.{Past};
ghost use Rattle.vk_model.specs.Trace.PointViews.{point_of};
ghost use Rattle.vk_model.specs.Sync.Node.{Node, nodes};
ghost use Rattle.vk_model.specs.Run.Runs.{Name, Stage};
ghost use Rattle.vk_model.specs.Run.CachedRuns.{happening};
ghost use Rattle.vk_sync.specs.Ready.{ready};
ghost use Rattle.vk_events.specs.Happens.{IsEvent};
ghost use Rattle.vk_events.specs.IsEvents.{untaken};
ghost use Rattle.vk_offers.specs.IsOffers.{ComesNext, name_of};
ghost use Rattle.vk_offers.specs.IsHappenings.{IsHappenings, AreKnown, MayAdd, MayFinish, happening_at_once};
ghost use Rattle.vk_offers.specs.Inner.Rows.{Adds, MayAddRows};

use crate::offers::Offers;
use std::alloc::{AllocError, Global};
use vk_events::{Event, Events, happening_is_unseen};
use vk_model::Point;
use vk_order::{Row, rows_of};
use vk_sync::Piece;

/// The points so far, as far as they decide what may run next, and which dependencies, waits and
/// signals happen: each once all pieces of commands before it have run. Those that have happened are
/// taken one by one, in reference order.
///
/// ```text
/// let mut happenings = Happenings::new(alloc);
/// happenings.add(&fill, 1)?;                  // a command in one piece
/// happenings.add(&signal, 0)?;                // a signal after it
/// happenings.take_next()                      // None
/// let piece = happenings.offers().nth(0);
/// happenings.finish(piece);
/// happenings.take_next()                      // the event of the signal
/// ```
#[derive(Drop)]
pub struct Happenings<'a> {
    offers: Offers<'a>,
    events: Events,
}

impl<'a> Happenings<'a> {
    /// No points.
    pub fn new(alloc: Global) -> Happenings<'a>
        ensures { IsHappenings result [] [] [] }
    {
        Happenings {
            offers: Offers::new(alloc),
            events: Events::new(alloc),
        }
    }

    /// What is offered.
    pub fn offers(&self) -> &Offers<'a>
        ensures { result.now ≡ self.now.offers }
    {
        &self.offers
    }

    /// How many nodes the points have.
    pub fn node_count(&self) -> usize
        ensures { (past : Past) (done : List Name) (left : List Node) → IsHappenings self.now past done left → result ≡ length (nodes past) }
    {
        self.events.node_count()
    }

    /// The next point has come, as for `Offers`. All memory that later calls want is taken here. The
    /// only error is want of memory, or of numbers; what comes after it isn't said then.
    pub fn add(&mut self, point: &Point<'a>, pieces: u64) -> Result<(), AllocError>
        requires next { MayAdd self.old (point_of point.now) pieces }
        requires queue { point.now.queue < 4 }
        // Behind those that are still to be taken come those of the point that happen at once.
        ensures left { OnOk result ((past : Past) (done : List Name) (left : List Node) → IsHappenings self.old past done left
            → ComesNext past (point_of point.now) pieces
            → IsHappenings self.new (point_of point.now ∷ past) done (left ++ happening_at_once past done (point_of point.now))) }
        // What happens since a stage before: point by point this leads to the stage after an entry.
        ensures happening { OnOk result ((s e f : Stage) → IsHappenings self.old e.front.past e.done (happening s e)
            → ComesNext e.front.past (point_of point.now) pieces → length (nodes s.front.past) ≤ length (nodes e.front.past)
            → f.front.past ≡ point_of point.now ∷ e.front.past → f.done ≡ e.done
            → IsHappenings self.new f.front.past f.done (happening s f)) }
    {
        happening_is_unseen();
        let rows = rows_of(self.offers.alloc, *point)?;
        let counts = self.offers.counts_of(rows.as_slice())?;
        self.offers.add(point, pieces)?;
        let fronts = self.offers.fronts();
        add_rows(&mut self.events, rows.as_slice(), counts.as_slice(), fronts)?;
        Ok(())
    }

    /// Takes the first in reference order of those that have happened. It takes no memory.
    pub fn take_next(&mut self) -> Option<Event>
        requires { AreKnown self.old }
        ensures some { IfSome result (λ e. (past : Past) (done : List Name) (left : List Node) → IsHappenings self.old past done left
            → (n : Node) × (rest : List Node) × (left ≡ n ∷ rest) × IsEvent e (nodes past) n × IsHappenings self.new past done rest) }
        ensures fewer { IfSome result (λ _. untaken self.new.events < untaken self.old.events) }
        ensures none { IfNone result ((past : Past) (done : List Name) (left : List Node) → IsHappenings self.old past done left
            → (left ≡ []) × IsHappenings self.new past done []) }
    {
        self.events.take_next()
    }

    /// A piece that might run has run, where all that had happened is taken. What happens then is
    /// what does from the stage before it to the one after it. It takes no memory.
    pub fn finish(&mut self, piece: Piece)
        requires ready { Contains (ready self.old.offers.ready) piece }
        requires taken { MayFinish self.old }
        ensures { (s : Stage) → IsHappenings self.old s.front.past s.done []
            → IsHappenings self.new s.front.past (name_of s.front.past piece ∷ s.done)
            (happening s (record s { done = name_of s.front.past piece ∷ s.done })) }
    {
        self.offers.finish(piece);
        let fronts = self.offers.fronts();
        self.events.advance(fronts);
    }
}

/// The rows of a point have come, one after another, with the counts of commands before each, where
/// so many commands of each queue are finished in the end.
fn add_rows(
    events: &mut Events,
    rows: &[Row<'_>],
    counts: &[[usize; 4]],
    fronts: [usize; 4],
) -> Result<(), AllocError>
    requires lengths { length counts.now ≡ length rows.now }
    requires follow { MayAddRows events.old rows.now counts.now fronts }
    ensures { OnOk result (Adds events.old events.new rows.now counts.now fronts) }
{
    for (index, row) in rows.iter().enumerate() {
        events.add(row, counts[index], fronts)?;
    }
    Ok(())
}

ghost use Rattle.std.specs.Prelude.{◌≡◌, ◌∷◌, OnOk, []};
ghost use Rattle.vk_model.specs.Trace.Point.{Past};
ghost use Rattle.vk_model.specs.Trace.PointViews.{point_of};
ghost use Rattle.vk_history.specs.Judged.{IsJudged};
ghost use Rattle.vk_touches.specs.Touched.{class_next};
ghost use Rattle.vk_history.specs.Tabled.{IsTabled};

use crate::bound::BoundMemories;
use crate::contents::Contents;
use crate::defrags::Defrags;
use crate::endings::Endings;
use crate::events::Events;
use crate::layouts::CurrentLayouts;
use crate::mappings::Mappings;
use crate::objects::Objects;
use crate::occupants::Occupants;
use crate::owners::Owners;
use crate::residents::Residents;
use crate::semaphores::Semaphores;
use crate::uses::Uses;
use std::alloc::{AllocError, Global};
use vk_model::{Action, Point};
use vk_order::{Frontier, Line};
use vk_touches::Spot;

/// What is asked of the past.
#[derive(Drop)]
pub struct Tables<'a> {
    /// Which entry made each object.
    pub objects: Objects<'a>,
    /// Which entry ended each object first.
    pub endings: Endings,
    /// How often memory is mapped.
    pub mappings: Mappings,
    /// How many live resources memory objects and pools have.
    pub occupants: Occupants,
    /// Which resources were created in each pool.
    pub residents: Residents,
    /// What is bound in each memory object.
    pub bound: BoundMemories,
    /// The defragmentations that haven't ended, and the pass that is open.
    pub defrags: Defrags,
    /// What was signaled to each semaphore.
    pub semaphores: Semaphores,
    /// How each event was set last.
    pub events: Events<'a>,
    /// The current layouts of images.
    pub layouts: CurrentLayouts,
    /// What is known of the bytes of each resource.
    pub contents: Contents,
    /// How submitted commands use resources.
    pub uses: Uses,
    /// Who owns each resource.
    pub owners: Owners<'a>,
    /// What is known of the nodes so far.
    pub frontier: Frontier,
}

impl<'a> Tables<'a> {
    /// Before the first point.
    pub fn new(alloc: Global) -> Tables<'a>
        ensures { IsTabled result [] }
    {
        Tables {
            objects: Objects::new(alloc),
            endings: Endings::new(alloc),
            mappings: Mappings::new(alloc),
            occupants: Occupants::new(alloc),
            residents: Residents::new(alloc),
            bound: BoundMemories::new(alloc),
            defrags: Defrags::new(alloc),
            semaphores: Semaphores::new(alloc),
            events: Events::new(alloc),
            layouts: CurrentLayouts::new(alloc),
            contents: Contents::new(alloc),
            uses: Uses::new(alloc),
            owners: Owners::new(alloc),
            frontier: Frontier::new(alloc),
        }
    }
}

/// Takes the next point. After an error the tables may have some of it.
pub fn note<'a>(tables: &mut Tables<'a>, point: &Point<'a>) -> Result<(), AllocError>
    ensures { OnOk result ((past : Past) → IsJudged (point_of point.now ∷ past) → IsTabled tables.old past → IsTabled tables.new (point_of point.now ∷ past)) }
{
    let line = line_of(point);
    let spot = Spot {
        line,
        place: tables.frontier.count(line),
        number: tables.frontier.nodes(),
    };
    tables.mappings.note(point, &tables.objects)?;
    tables.occupants.note(point, &tables.objects)?;
    tables.bound.note(point, &tables.objects)?;
    tables.defrags.note(point, &tables.objects)?;
    tables.layouts.note_with(point, &tables.objects)?;
    tables
        .owners
        .note(point, &tables.objects, &tables.frontier)?;
    tables.objects.note(point)?;
    tables.endings.note(point)?;
    tables.events.note(point)?;
    tables.semaphores.note(point, line, spot.place)?;
    tables
        .contents
        .note(point, spot, &tables.objects, &tables.frontier)?;
    tables.uses.note(point, &tables.frontier)?;
    tables.residents.note(point)?;
    tables.frontier.advance(point)?;
    Ok(())
}

/// The line of a point's node, where it has one and isn't a wait.
fn line_of(point: &Point<'_>) -> Line
    ensures { result ≡ class_next (point_of point.now) }
{
    match point.action {
        Action::Host(_) => Line::Host,
        Action::Signal(_) => Line::Signals(point.queue),
        Action::Wait(_) | Action::Run(_) => Line::Commands(point.queue),
    }
}

ghost use Rattle.std.specs.Prelude.{◌≡◌, ◌∷◌, ◌++◌, ◌||◌, ◌==◌, not, option_and_then};
ghost use Rattle.std.specs.List.{list_any};
ghost use Rattle.vk_model.specs.Basics.{holds};
ghost use Rattle.vk_model.specs.Trace.Objects.{live, defrag_in, pool_of};
ghost use Rattle.vk_model.specs.Trace.Point.{on_host};
ghost use Rattle.vk_model.specs.Trace.Structure.{IsOrdered};
ghost use Rattle.vk_model.specs.Rules.Ids as ids;
ghost use Rattle.vk_model.specs.Trace.PointViews.{action_of, point_of};
ghost use Rattle.vk_history.specs.PointViews.{past};
ghost use Rattle.vk_rules.specs.Inner.RuleParts.{is_dead_for, some_dead};

use vk_history::History;
use vk_model::{Action, Cmd, Element, Entry, Place, Point, SemaphoreValue};

/// NEW_ID: the id made was made before.
pub fn breaks_new_id(history: &History<'_>, point: &Point<'_>) -> bool
    ensures { result ≡ ids.breaks_new_id (past history.now) (point_of point.now) }
{
    match point.action {
        Action::Host(entry) => match entry.made_id() {
            Some(id) => history.made(id).is_some(),
            None => false,
        },
        _ => false,
    }
}

/// LIVE_ID: an id named isn't a live object of the kind asked, or an end of a pass lists a resource that
/// isn't in the pool.
pub fn breaks_live_id(history: &History<'_>, point: &Point<'_>) -> bool
    requires { IsOrdered (point_of point.now ∷ past history.now) }
    ensures { result ≡ ids.breaks_live_id (past history.now) (point_of point.now) }
{
    names_dead(history, point) || ends_stray(history, point)
}

fn names_dead(history: &History<'_>, point: &Point<'_>) -> bool
    requires { IsOrdered (point_of point.now ∷ past history.now) }
    ensures { result ≡ some_dead (past history.now) (point_of point.now) (ids.asked_by (action_of point.now.action)) }
{
    match point.action {
        Action::Host(entry) => entry_names_dead(history, point, entry),
        Action::Wait(submit) => is_no_semaphore(history, point, submit.semaphore),
        Action::Run(command) => command_names_dead(history, point, command),
        Action::Signal(submit) => is_no_semaphore(history, point, submit.semaphore),
    }
}

fn entry_names_dead(history: &History<'_>, point: &Point<'_>, entry: &Entry) -> bool
    requires { IsOrdered (point_of point.now ∷ past history.now) }
    ensures { result ≡ some_dead (past history.now) (point_of point.now) (ids.asked_by_entry entry.now) }
{
    match entry {
        Entry::Buffer { info, .. } => is_nowhere(history, point, info.place),
        Entry::Image { info, .. } => is_nowhere(history, point, info.place),
        Entry::Free { memory } => is_no_memory(history, point, *memory),
        Entry::Destroy { resource } => is_no_resource(history, point, *resource),
        Entry::DropPool { pool } => is_no_pool(history, point, *pool),
        Entry::Map { buffer } => is_no_buffer(history, point, *buffer),
        Entry::Unmap { buffer } => is_no_buffer(history, point, *buffer),
        Entry::Write { buffer, .. } => is_no_buffer(history, point, *buffer),
        Entry::Read { buffer, .. } => is_no_buffer(history, point, *buffer),
        Entry::Flush { buffer, .. } => is_no_buffer(history, point, *buffer),
        Entry::Invalidate { buffer, .. } => is_no_buffer(history, point, *buffer),
        Entry::Signal { semaphore, .. } => is_no_semaphore(history, point, *semaphore),
        Entry::Wait { waits } => waits_for_dead(history, point, waits.as_slice()),
        Entry::Defrag { pool, .. } => is_no_pool(history, point, *pool),
        Entry::Pass { defrag } => is_no_defrag(history, point, *defrag),
        Entry::EndPass {
            defrag,
            ignored,
            destroyed,
        } => ends_dead(
            history,
            point,
            *defrag,
            ignored.as_slice(),
            destroyed.as_slice(),
        ),
        Entry::EndDefrag { defrag } => is_no_defrag(history, point, *defrag),
        Entry::Pool { .. } => false,
        Entry::Memory { .. } => false,
        Entry::Semaphore { .. } => false,
        Entry::Event { .. } => false,
        Entry::Submit { .. } => false,
    }
}

fn is_nowhere(history: &History<'_>, point: &Point<'_>, place: Place) -> bool
    requires { IsOrdered (point_of point.now ∷ past history.now) }
    ensures { result ≡ some_dead (past history.now) (point_of point.now) (ids.asked_by_place place) }
{
    match place {
        Place::Dedicated { .. } => false,
        Place::Pool { pool } => is_no_pool(history, point, pool),
        Place::PoolUpper { pool } => is_no_pool(history, point, pool),
        Place::Memory { memory, .. } => is_no_memory(history, point, memory),
    }
}

fn waits_for_dead(history: &History<'_>, point: &Point<'_>, waits: &[SemaphoreValue]) -> bool
    requires { IsOrdered (point_of point.now ∷ past history.now) }
    ensures { result ≡ list_any (λ w. is_dead_for (past history.now) (point_of point.now) w.semaphore ids.is_semaphore) waits.now }
{
    waits
        .iter()
        .any(|wait| is_no_semaphore(history, point, wait.semaphore))
}

fn ends_dead(
    history: &History<'_>,
    point: &Point<'_>,
    defrag: u32,
    ignored: &[u32],
    destroyed: &[u32],
) -> bool
    requires { IsOrdered (point_of point.now ∷ past history.now) }
    ensures { result ≡ (is_dead_for (past history.now) (point_of point.now) defrag ids.is_defrag || (list_any (λ r. is_dead_for (past history.now) (point_of point.now) r ids.is_resource) ignored.now || list_any (λ r. is_dead_for (past history.now) (point_of point.now) r ids.is_resource) destroyed.now)) }
{
    is_no_defrag(history, point, defrag)
        || lists_dead(history, point, ignored)
        || lists_dead(history, point, destroyed)
}

fn lists_dead(history: &History<'_>, point: &Point<'_>, resources: &[u32]) -> bool
    requires { IsOrdered (point_of point.now ∷ past history.now) }
    ensures { result ≡ list_any (λ r. is_dead_for (past history.now) (point_of point.now) r ids.is_resource) resources.now }
{
    resources
        .iter()
        .any(|resource| is_no_resource(history, point, *resource))
}

fn command_names_dead(history: &History<'_>, point: &Point<'_>, command: &Cmd) -> bool
    requires { IsOrdered (point_of point.now ∷ past history.now) }
    ensures { result ≡ some_dead (past history.now) (point_of point.now) (ids.asked_by_command command.now) }
{
    match command {
        Cmd::Fill { buffer, .. } => is_no_buffer(history, point, *buffer),
        Cmd::Update { buffer, .. } => is_no_buffer(history, point, *buffer),
        Cmd::Copy {
            source,
            destination,
            ..
        } => is_no_buffer(history, point, *source) || is_no_buffer(history, point, *destination),
        Cmd::Clear { image, .. } => is_no_image(history, point, *image),
        Cmd::CopyIn { buffer, image, .. } => {
            is_no_buffer(history, point, *buffer) || is_no_image(history, point, *image)
        }
        Cmd::CopyOut { image, buffer, .. } => {
            is_no_image(history, point, *image) || is_no_buffer(history, point, *buffer)
        }
        Cmd::CopyImage {
            source,
            destination,
            ..
        } => is_no_image(history, point, *source) || is_no_image(history, point, *destination),
        Cmd::Barrier { elements } => has_dead_element(history, point, elements.as_slice()),
        Cmd::Set { event, .. } => is_no_event(history, point, *event),
        Cmd::Await { event, .. } => is_no_event(history, point, *event),
    }
}

fn has_dead_element(history: &History<'_>, point: &Point<'_>, elements: &[Element]) -> bool
    requires { IsOrdered (point_of point.now ∷ past history.now) }
    ensures { result ≡ list_any (λ e. some_dead (past history.now) (point_of point.now) (ids.asked_by_element e)) elements.now }
{
    elements
        .iter()
        .any(|element| element_names_dead(history, point, element))
}

fn element_names_dead(history: &History<'_>, point: &Point<'_>, element: &Element) -> bool
    requires { IsOrdered (point_of point.now ∷ past history.now) }
    ensures { result ≡ some_dead (past history.now) (point_of point.now) (ids.asked_by_element element.now) }
{
    match element {
        Element::Memory(_) => false,
        Element::Buffer(on_buffer) => is_no_buffer(history, point, on_buffer.buffer),
        Element::Image(on_image) => is_no_image(history, point, on_image.image),
    }
}

fn is_no_buffer(history: &History<'_>, point: &Point<'_>, id: u32) -> bool
    requires { IsOrdered (point_of point.now ∷ past history.now) }
    ensures { result ≡ is_dead_for (past history.now) (point_of point.now) id ids.is_buffer }
{
    !matches!(history.live_for(point, id), Some(Entry::Buffer { .. }))
}

fn is_no_image(history: &History<'_>, point: &Point<'_>, id: u32) -> bool
    requires { IsOrdered (point_of point.now ∷ past history.now) }
    ensures { result ≡ is_dead_for (past history.now) (point_of point.now) id ids.is_image }
{
    !matches!(history.live_for(point, id), Some(Entry::Image { .. }))
}

fn is_no_resource(history: &History<'_>, point: &Point<'_>, id: u32) -> bool
    requires { IsOrdered (point_of point.now ∷ past history.now) }
    ensures { result ≡ is_dead_for (past history.now) (point_of point.now) id ids.is_resource }
{
    !matches!(
        history.live_for(point, id),
        Some(Entry::Buffer { .. } | Entry::Image { .. })
    )
}

fn is_no_pool(history: &History<'_>, point: &Point<'_>, id: u32) -> bool
    requires { IsOrdered (point_of point.now ∷ past history.now) }
    ensures { result ≡ is_dead_for (past history.now) (point_of point.now) id ids.is_pool }
{
    !matches!(history.live_for(point, id), Some(Entry::Pool { .. }))
}

fn is_no_memory(history: &History<'_>, point: &Point<'_>, id: u32) -> bool
    requires { IsOrdered (point_of point.now ∷ past history.now) }
    ensures { result ≡ is_dead_for (past history.now) (point_of point.now) id ids.is_memory }
{
    !matches!(history.live_for(point, id), Some(Entry::Memory { .. }))
}

fn is_no_semaphore(history: &History<'_>, point: &Point<'_>, id: u32) -> bool
    requires { IsOrdered (point_of point.now ∷ past history.now) }
    ensures { result ≡ is_dead_for (past history.now) (point_of point.now) id ids.is_semaphore }
{
    !matches!(history.live_for(point, id), Some(Entry::Semaphore { .. }))
}

fn is_no_event(history: &History<'_>, point: &Point<'_>, id: u32) -> bool
    requires { IsOrdered (point_of point.now ∷ past history.now) }
    ensures { result ≡ is_dead_for (past history.now) (point_of point.now) id ids.is_event }
{
    !matches!(history.live_for(point, id), Some(Entry::Event { .. }))
}

fn is_no_defrag(history: &History<'_>, point: &Point<'_>, id: u32) -> bool
    requires { IsOrdered (point_of point.now ∷ past history.now) }
    ensures { result ≡ is_dead_for (past history.now) (point_of point.now) id ids.is_defrag }
{
    !matches!(history.live_for(point, id), Some(Entry::Defrag { .. }))
}

fn ends_stray(history: &History<'_>, point: &Point<'_>) -> bool
    ensures { result ≡ on_host (ids.lists_stray (past history.now)) (point_of point.now) }
{
    match point.action {
        Action::Host(
            Entry::EndPass {
                defrag,
                ignored,
                destroyed,
            },
        ) => lists_stray(history, *defrag, ignored.as_slice(), destroyed.as_slice()),
        _ => false,
    }
}

fn lists_stray(history: &History<'_>, defrag: u32, ignored: &[u32], destroyed: &[u32]) -> bool
    ensures { result ≡ list_any (ids.is_stray (past history.now) defrag) (ignored.now ++ destroyed.now) }
{
    let pool = defragmented(history, defrag);
    has_stray(history, pool, ignored) || has_stray(history, pool, destroyed)
}

/// The pool of a defragmentation that is live.
fn defragmented(history: &History<'_>, defrag: u32) -> Option<u32>
    ensures { result ≡ option_and_then defrag_in (live (past history.now) defrag) }
{
    match history.live(defrag) {
        Some(Entry::Defrag { pool, .. }) => Some(*pool),
        _ => None,
    }
}

fn has_stray(history: &History<'_>, pool: Option<u32>, resources: &[u32]) -> bool
    ensures { result ≡ list_any (λ r. not (holds (pool_of (past history.now) r) (λ p. holds pool (λ q. p == q)))) resources.now }
{
    resources
        .iter()
        .any(|resource| is_stray(history, pool, *resource))
}

fn is_stray(history: &History<'_>, pool: Option<u32>, resource: u32) -> bool
    ensures { result ≡ not (holds (pool_of (past history.now) resource) (λ p. holds pool (λ q. p == q))) }
{
    match (history.pool_of(resource), pool) {
        (Some(one), Some(other)) => one != other,
        _ => true,
    }
}

/// Whether an id is a live resource.
pub fn is_live_resource(history: &History<'_>, id: u32) -> bool
    ensures { result ≡ holds (live (past history.now) id) ids.is_resource }
{
    match history.live(id) {
        Some(Entry::Buffer { .. } | Entry::Image { .. }) => true,
        _ => false,
    }
}

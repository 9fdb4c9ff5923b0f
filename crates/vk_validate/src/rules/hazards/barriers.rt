//! What the layout transitions of a barrier find wrong with the bytes that they read and write.
ghost use Rattle.std.specs.Prelude.{◌≡◌, ◌&&◌, ◌∷◌, [], not, length, IfOk, MatchOption, None};
ghost use Rattle.vk_model.specs.declared.command.Cmd.TheVariants as cmd;
ghost use Rattle.vk_model.specs.declared.command.Element.TheVariants as element;
ghost use Rattle.vk_model.specs.Trace.Objects.{image};
ghost use Rattle.vk_model.specs.Trace.Point.{Run};
ghost use Rattle.vk_model.specs.Trace.Structure.{IsOrdered};
ghost use Rattle.vk_model.specs.Sync.Access.{transition_bytes};
ghost use Rattle.vk_model.specs.World.Ownership as ownership;
ghost use Rattle.vk_image_bytes.specs.Ranges.{AreRanges};
ghost use Rattle.vk_model.specs.Trace.PointViews.{action_of, point_of};
ghost use Rattle.vk_history.specs.Contents.{AreShort};
ghost use Rattle.vk_history.specs.PointViews.{past};
ghost use Rattle.vk_history.specs.Judged.{early_rules, first_among};
ghost use Rattle.vk_touches.specs.Bytes.{HaveNumbers};
ghost use Rattle.vk_touches.specs.Conflicts.{AreConflicts, FoundAmong, IsEarly, MissesAt};
ghost use Rattle.vk_validate.specs.Inner.Transitions.{AreCovered, AreMoved, FoundInMoved, FindsEarly, FindsMissed};

use std::alloc::AllocError;
use vk_history::{ElementPart, History, ResourceContents, is_transition};
use vk_image_bytes::{ByteRanges, ImageBytes};
use vk_model::{Element, ImageElement, Point, SubresourceRange};
use vk_order::{NewNode, elements_are_alone, host_seen, prefixes};
use vk_rules::is_release;
use vk_touches::{Conflicts, TransitionAccess};

/// The bytes that a layout transition reads and writes.
#[derive(Clone, Copy)]
struct Moved<'a> {
    /// The id of the image.
    image: u32,
    /// What is known of its bytes.
    contents: &'a ResourceContents,
    /// The numbers of those of the transition.
    ranges: ByteRanges,
}

/// What the layout transitions of a barrier find wrong, each as if it came alone.
pub fn of_barrier(
    history: &History<'_>,
    point: &Point<'_>,
    elements: &[Element],
) -> Result<Conflicts, AllocError>
    requires ordered { IsOrdered (point_of point.now ∷ past history.now) }
    requires early { first_among early_rules (past history.now) (point_of point.now) ≡ None }
    requires barrier { action_of point.now.action ≡ Run (cmd.Barrier elements.now) }
    ensures { IfOk result (λ found. AreConflicts found (past history.now) (point_of point.now)) }
{
    host_seen();
    prefixes();
    elements_are_alone();
    history.is_judged();
    let war = has_early_transition(history, point, elements)?;
    let missed = has_missed_transition(history, point, elements)?;
    Ok(Conflicts {
        war,
        raw: missed,
        waw: missed,
        undefined: false,
    })
}

/// Whether a transition of some element has a byte whose last read, or last transition, it doesn't
/// come after.
fn has_early_transition(
    history: &History<'_>,
    point: &Point<'_>,
    elements: &[Element],
) -> Result<bool, AllocError>
    ensures { IfOk result (λ r. FoundAmong (FindsEarly (past history.now) (point_of point.now)) r elements.now) }
{
    for element in elements {
        let is_early = finds_early(history, point, element)?;
        if is_early {
            return Ok(true);
        }
    }
    Ok(false)
}

/// The same of one element.
fn finds_early(
    history: &History<'_>,
    point: &Point<'_>,
    element: &Element,
) -> Result<bool, AllocError>
    ensures { IfOk result (λ r. FindsEarly (past history.now) (point_of point.now) r element.now) }
{
    let Some(moved) = moved_by(history, point.queue, element) else {
        return Ok(false);
    };
    let new_node = history.new_element(point, element)?;
    Ok(moved.has_early(&new_node))
}

/// Whether a transition of some element has a byte whose last write by a command, or last
/// transition, it doesn't see.
fn has_missed_transition(
    history: &History<'_>,
    point: &Point<'_>,
    elements: &[Element],
) -> Result<bool, AllocError>
    ensures { IfOk result (λ r. FoundAmong (FindsMissed (past history.now) (point_of point.now)) r elements.now) }
{
    for element in elements {
        let is_missed = finds_missed(history, point, element)?;
        if is_missed {
            return Ok(true);
        }
    }
    Ok(false)
}

/// The same of one element.
fn finds_missed(
    history: &History<'_>,
    point: &Point<'_>,
    element: &Element,
) -> Result<bool, AllocError>
    ensures { IfOk result (λ r. FindsMissed (past history.now) (point_of point.now) r element.now) }
{
    let Some(moved) = moved_by(history, point.queue, element) else {
        return Ok(false);
    };
    match history.element_part(point, element)? {
        Some(ElementPart { frontier, part }) => {
            let by = TransitionAccess {
                frontier,
                part: &part,
                bytes: history.bytes(moved.image),
            };
            Ok(moved.has_missed(&by))
        }
        None => Ok(false),
    }
}

/// The bytes of the layout transition of an element of a barrier on a queue, if it is one: that of an
/// ownership transfer is at its second half.
fn moved_by<'a>(history: &'a History<'_>, queue: u32, element: &Element) -> Option<Moved<'a>>
    ensures { MatchOption result (transition_bytes (past history.now) queue element.now ≡ []) (λ m. AreMoved (past history.now) queue element.now m) }
{
    match element {
        Element::Image(on_image) => moved_of(history, queue, on_image),
        _ => None,
    }
}

/// The same of an element on an image.
fn moved_of<'a>(history: &'a History<'_>, queue: u32, on_image: &ImageElement) -> Option<Moved<'a>>
    ensures { MatchOption result (transition_bytes (past history.now) queue (element.Image on_image.now) ≡ []) (λ m. AreMoved (past history.now) queue (element.Image on_image.now) m) }
{
    if moves(queue, on_image) {
        covered(history, on_image)
    } else {
        None
    }
}

/// Whether it is a layout transition, and not the first half of an ownership transfer.
fn moves(queue: u32, on_image: &ImageElement) -> bool
    ensures { result ≡ (ownership.is_transition on_image.now && not (ownership.is_release queue (element.Image on_image.now))) }
{
    is_transition(on_image) && !is_release(queue, on_image.families)
}

/// The bytes of the levels and layers that it names.
fn covered<'a>(history: &'a History<'_>, on_image: &ImageElement) -> Option<Moved<'a>>
    ensures { MatchOption result (image (past history.now) on_image.now.image ≡ None) (λ m. AreCovered (past history.now) on_image.now m) }
{
    let Some(contents) = history.contents(on_image.image) else {
        return None;
    };
    match &contents.image {
        Some(image) => Some(Moved {
            image: on_image.image,
            contents,
            ranges: ranges_of(image, &on_image.range),
        }),
        None => None,
    }
}

/// Those of levels and layers of an image.
fn ranges_of(image: &ImageBytes, range: &SubresourceRange) -> ByteRanges
    ensures short { AreShort result }
    ensures ranges { AreRanges image.now range.now result }
{
    let _len: u64 = image.len();
    image.ranges(range)
}

impl Moved<'_> {
    /// Whether one has a last read, by the host or by a command of some queue, or a last transition
    /// that doesn't come before.
    fn has_early(&self, new_node: &NewNode<'_>) -> bool
        requires { AreShort self.now.ranges }
        ensures { FoundInMoved (λ k. IsEarly new_node.now) result self.now }
    {
        for index in 0..self.ranges.count {
            let low = self.ranges.low(index);
            if self.contents.has_early(low, self.ranges.size, new_node) {
                return true;
            }
        }
        false
    }

    /// Whether one has a last write by a command or a last transition that isn't seen.
    fn has_missed(&self, by: &TransitionAccess<'_>) -> bool
        requires short { AreShort self.now.ranges }
        requires numbers { HaveNumbers by.now.bytes (length self.now.contents.now.touches) }
        ensures { FoundInMoved (MissesAt by.now) result self.now }
    {
        for index in 0..self.ranges.count {
            let low = self.ranges.low(index);
            if self.contents.has_missed_at(low, self.ranges.size, by) {
                return true;
            }
        }
        false
    }
}

ghost use Rattle.std.specs.Prelude.{◌≡◌, ◌∷◌, [], true};
ghost use Rattle.vk_model.specs.declared.command.Dependency.{Dependency as AnyDependency};
ghost use Rattle.vk_model.specs.declared.command.Element.TheVariants as element;
ghost use Rattle.vk_model.specs.World.Ownership as ownership;
ghost use Rattle.vk_model.specs.Trace.PointViews.{action_of};
ghost use Rattle.vk_history.specs.Layouts.{elements_at};

use vk_model::{Action, Cmd, Element, ImageElement, Point};

/// The elements of the barrier that a point is; of another point there are none.
pub fn elements_of<'a>(point: &Point<'a>) -> &'a [Element]
    ensures { result.now ≡ elements_at (action_of point.now.action) }
{
    match point.action {
        Action::Run(Cmd::Barrier { elements }) => elements.as_slice(),
        _ => &[],
    }
}

/// Whether there is one element, on all memory. It names no resource, and of most barriers it is so.
pub fn is_memory_alone(elements: &[Element]) -> bool
    ensures { result ≡ true → (d : AnyDependency) × (elements.now ≡ element.Memory d ∷ []) }
{
    matches!(elements, [Element::Memory(_)])
}

/// Whether an image element is a layout transition: its layouts differ.
pub fn is_transition(element: &ImageElement) -> bool
    ensures { result ≡ ownership.is_transition element.now }
{
    element.old_layout != element.new_layout
}

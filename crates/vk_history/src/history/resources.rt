ghost use Rattle.std.specs.Prelude.{◌≡◌, ◌∷◌, not, Contains, IfOk, Some, option_map};
ghost use Rattle.vk_model.specs.Trace.Point.{Point as AnyPoint, Host};
ghost use Rattle.vk_model.specs.declared.entry.Entry.{Entry as AnyEntry};
ghost use Rattle.vk_model.specs.Sync.Node.{Node, nodes, Hosts, Depends, Barrier};
ghost use Rattle.vk_model.specs.Sync.Before.{before};
ghost use Rattle.vk_model.specs.Sync.Complete.{is_busy};
ghost use Rattle.vk_order.specs.Frontiers.{IsNewNode};
ghost use Rattle.vk_touches.specs.Touched.{next_node};
ghost use Rattle.vk_model.specs.Trace.Objects.{is_exclusive, image};
ghost use Rattle.vk_order.specs.Lines.{place, line_of};
ghost use Rattle.vk_model.specs.Trace.PointViews.{point_of};
ghost use Rattle.vk_order.specs.Wide.{IsApartFrom};
ghost use Rattle.vk_history.specs.Owners.{IsOwned, kept_of};
ghost use Rattle.vk_model.specs.World.Effect.{world};
ghost use Rattle.vk_model.specs.Rules.Layouts.{has_other_layout};
ghost use Rattle.vk_history.specs.Contents.{AreBytesOf};
ghost use Rattle.vk_history.specs.Known.{IsKnownAt};
ghost use Rattle.vk_history.specs.PointViews.{past};

use crate::element_parts::ElementPart;
use crate::history::History;
use crate::owners::Owned;
use std::alloc::AllocError;
use vk_model::{Element, Layout, Point, SubresourceRange};
use vk_order::{Act, NewNode, Spot};
use vk_touches::Bytes;

impl<'a> History<'a> {
    /// Whether all subresources of a range of an image are in a layout.
    pub fn is_in(&self, image: u32, range: &SubresourceRange, layout: Layout) -> bool
        ensures { result ≡ not (has_other_layout (world (past self.now)) image range.now layout) }
    {
        self.tables.layouts.is_in(image, range, layout)
    }

    /// Whether a submitted command that names a resource isn't known complete at a host entry that
    /// comes next, which sees this.
    pub fn is_busy(&self, resource: u32, new_node: &NewNode<'_>) -> bool
        ensures { (p : AnyPoint) (x : AnyEntry) → p.action ≡ Host x → IsNewNode (nodes (past self.now)) (next_node (past self.now) p (Hosts x)) new_node.now
            → result ≡ is_busy (past self.now) (nodes (p ∷ past self.now)) (next_node (past self.now) p (Hosts x)) resource }
    {
        self.is_judged();
        self.tables.uses.is_busy(resource, new_node)
    }

    /// Whether one queue family at a time owns a resource.
    pub fn is_exclusive(&self, id: u32) -> bool
        ensures { result ≡ is_exclusive (past self.now) id }
    {
        self.tables.objects.is_exclusive(id)
    }

    /// Who owns a resource.
    pub fn owner(&self, resource: u32) -> Option<Owned<'a>>
        ensures { IsOwned (option_map kept_of result) ((world (past self.now)).owner resource) (nodes (past self.now)) resource }
    {
        self.tables.owners.of(resource)
    }

    /// Whether the node of a line before which this many came comes before an element of a barrier
    /// that comes next.
    pub fn is_before(
        &self,
        spot: Spot,
        point: &Point<'_>,
        element: &Element,
    ) -> Result<bool, AllocError>
        ensures { IfOk result (λ r. (m n : Node) → n ≡ next_node (past self.now) (point_of point.now) (Depends Barrier element.now) → IsApartFrom (nodes (past self.now)) n
            → Contains (nodes (past self.now)) m → line_of m ≡ Some spot.line → place (nodes (past self.now)) spot.line m.number ≡ spot.place → r ≡ before (n ∷ nodes (past self.now)) m n) }
    {
        let new_node = self.new_element(point, element)?;
        Ok(new_node.follows(spot.line, spot.place))
    }

    /// What an element of a barrier that comes next has before it, and what it sees.
    pub fn new_element(
        &self,
        point: &Point<'_>,
        element: &Element,
    ) -> Result<NewNode<'_>, AllocError>
        ensures { IfOk result (λ s. (n : Node) → n ≡ next_node (past self.now) (point_of point.now) (Depends Barrier element.now) → IsApartFrom (nodes (past self.now)) n → IsNewNode (nodes (past self.now)) n s) }
    {
        self.tables.frontier.new_node(point, &Act::Barrier(element))
    }

    /// What is known at such an element, where it is on a part of memory.
    pub fn element_part(
        &self,
        point: &Point<'_>,
        element: &Element,
    ) -> Result<Option<ElementPart<'_>>, AllocError>
        ensures { IfOk result (λ known. (n : Node) → n ≡ next_node (past self.now) (point_of point.now) (Depends Barrier element.now) → IsApartFrom (nodes (past self.now)) n → IsKnownAt (past self.now) n known) }
    {
        let act = Act::Barrier(element);
        let new_node = self.tables.frontier.new_node(point, &act)?;
        let known = self.tables.frontier.part(point, &act, &new_node)?;
        match known {
            Some(part) => Ok(Some(ElementPart {
                frontier: &self.tables.frontier,
                part,
            })),
            None => Ok(None),
        }
    }

    /// The bytes of a resource, by their numbers.
    pub fn bytes(&self, resource: u32) -> Bytes<'_>
        ensures { AreBytesOf (past self.now) resource result }
    {
        match self.image(resource) {
            Some(info) => self.image_bytes(resource, info.levels),
            None => Bytes::Buffer(resource),
        }
    }

    /// Those of an image, which has so many levels.
    fn image_bytes(&self, id: u32, levels: u32) -> Bytes<'_>
        requires { option_map (λ m. m.levels) (image (past self.now) id) ≡ Some levels }
        ensures { AreBytesOf (past self.now) id result }
    {
        match self.tables.contents.image(id) {
            Some(bytes) => Bytes::Image { id, levels, bytes },
            None => unreachable!(),
        }
    }
}

ghost use Rattle.std.specs.Prelude.{◌≡◌, ◌≢◌, ◌∷◌, [], ℕ, not, IfSome, IsSome, OnOk, IfOk, IsTrue, option_map};
ghost use Rattle.std.specs.List.{fold};
ghost use Rattle.std.specs.Ordering.{nat_cmp};
ghost use Rattle.std.specs.BTreeMap.{get};
ghost use Rattle.vk_model.specs.Trace.Point.{Past};
ghost use Rattle.vk_model.specs.World.Bytes.{World};
ghost use Rattle.vk_model.specs.World.Effect.{world, after_element, layout_after};
ghost use Rattle.vk_model.specs.Rules.Layouts.{has_other_layout};
ghost use Rattle.vk_model.specs.Trace.PointViews.{point_of};
ghost use Rattle.vk_history.specs.Judged.{IsJudged};
ghost use Rattle.vk_history.specs.Layouts.{AreCurrent, AreKept, AreThere, is_there, has_subresources, transition_of, is_in_undefined, HasRoom, IsNew, IsSet, SetIn};
ghost use Rattle.vk_history.specs.Tabled.{AreObjects};

use crate::elements::{elements_of, is_transition};
use crate::families::family_of;
use crate::objects::Objects;
use std::alloc::{AllocError, Global};
use std::collections::BTreeMap;
use vk_layouts::{Layouts, Transfer};
use vk_model::{Element, Entry, ImageElement, ImageInfo, Layout, Point, SubresourceRange};

/// The current layouts of the images that had a transition.
#[derive(Drop)]
pub struct CurrentLayouts {
    alloc: Global,
    images: BTreeMap<u32, Layouts>,
}

impl CurrentLayouts {
    /// Before the first point.
    pub fn new(alloc: Global) -> CurrentLayouts
        ensures { AreCurrent result [] }
    {
        CurrentLayouts {
            alloc,
            images: BTreeMap::new(alloc),
        }
    }

    /// Whether all subresources of a range of an image are in a layout.
    pub fn is_in(&self, image: u32, range: &SubresourceRange, layout: Layout) -> bool
        ensures { (past : Past) → AreCurrent self.now past
            → result ≡ not (has_other_layout (world past) image range.now layout) }
    {
        match self.images.get(&image) {
            Some(layouts) => layouts.is_in(range, layout),
            None => is_in_undefined(range, layout),
        }
    }

    /// Takes the next point, where these are the objects so far. After an error the layouts may
    /// have some of it.
    pub fn note_with(&mut self, point: &Point<'_>, objects: &Objects<'_>) -> Result<(), AllocError>
        ensures { OnOk result ((past : Past) → IsJudged (point_of point.now ∷ past)
            → AreObjects objects.now past → AreCurrent self.old past
            → AreCurrent self.new (point_of point.now ∷ past)) }
    {
        self.change_all(family_of(point.queue), elements_of(point), objects)
    }

    /// What the elements of a barrier do on a queue of a family.
    fn change_all(
        &mut self,
        family: u32,
        elements: &[Element],
        objects: &Objects<'_>,
    ) -> Result<(), AllocError>
        ensures { OnOk result ((past : Past) (w : World) → AreObjects objects.now past
            → AreThere past elements.now → AreKept self.old past w.layout
            → AreKept self.new past (fold (after_element past family) w elements.now).layout) }
    {
        for element in elements {
            self.change(family, element, objects)?;
        }
        Ok(())
    }

    fn change(
        &mut self,
        family: u32,
        element: &Element,
        objects: &Objects<'_>,
    ) -> Result<(), AllocError>
        ensures { OnOk result ((past : Past) (w : World) → AreObjects objects.now past
            → IsTrue (is_there past element.now) → AreKept self.old past w.layout
            → AreKept self.new past (after_element past family w element.now).layout) }
    {
        match transition_of(family, element) {
            Some(transition) => self.transition(transition, objects),
            None => Ok(()),
        }
    }

    fn transition(
        &mut self,
        element: &ImageElement,
        objects: &Objects<'_>,
    ) -> Result<(), AllocError>
        ensures { OnOk result ((past : Past) (w : World) → AreObjects objects.now past
            → IsTrue (has_subresources past element.now) → AreKept self.old past w.layout
            → AreKept self.new past (layout_after element.now w)) }
    {
        self.make_room(element.image, objects)?;
        self.set(element);
        Ok(())
    }

    /// Makes the layouts of an image, all UNDEFINED, if there are none.
    fn make_room(&mut self, id: u32, objects: &Objects<'_>) -> Result<(), AllocError>
        ensures { OnOk result ((past : Past) → AreObjects objects.now past
            → HasRoom self.old self.new past id) }
    {
        if self.images.contains_key(&id) {
            return Ok(());
        }
        match objects.made(id) {
            Some(Entry::Image { info, .. }) => self.make(id, info),
            _ => Ok(()),
        }
    }

    fn make(&mut self, id: u32, info: &ImageInfo) -> Result<(), AllocError>
        ensures here { OnOk result (IfSome (get nat_cmp self.new.images id) (IsNew info.now)) }
        ensures present { OnOk result (IsSome (get nat_cmp self.new.images id)) }
        ensures others { OnOk result ((other : ℕ) → other ≢ id
            → get nat_cmp self.new.images other ≡ get nat_cmp self.old.images other) }
    {
        let layouts = new_layouts(self.alloc, info)?;
        self.images.insert(id, layouts)?;
        Ok(())
    }

    /// Puts the subresources of an element in its new layout.
    fn set(&mut self, element: &ImageElement)
        ensures here { SetIn (get nat_cmp self.old.images element.now.image)
            (get nat_cmp self.new.images element.now.image) element.now }
        ensures others { (other : ℕ) → other ≢ element.now.image
            → get nat_cmp self.new.images other ≡ get nat_cmp self.old.images other }
    {
        if let Some(layouts) = self.images.get_mut(&element.image) {
            set(layouts, element);
        }
    }
}

/// The layouts of an image that was made.
fn new_layouts(alloc: Global, info: &ImageInfo) -> Result<Layouts, AllocError>
    ensures { IfOk result (IsNew info.now) }
{
    let layouts = Layouts::new(alloc, info.levels, info.layers)?;
    Ok(layouts)
}

fn set(layouts: &mut Layouts, element: &ImageElement)
    ensures { IsSet layouts.old layouts.new element.now }
{
    if layouts.has(&element.range) {
        layouts.transition(&element.range, element.new_layout);
    }
}

/// The image element that is a transition on a queue of a family: that of a transfer of ownership
/// takes place at the acquire alone.
fn transition_of(family: u32, element: &Element) -> Option<&ImageElement>
    ensures { option_map (λ e. e.now) result ≡ transition_of family element.now }
{
    let Element::Image(on_image) = element else {
        return None;
    };
    let transfer = Transfer::of(family, on_image.families);
    let acts = matches!(transfer, Transfer::Stays | Transfer::Acquire);
    if acts && is_transition(on_image) {
        Some(on_image)
    } else {
        None
    }
}

/// Whether all subresources of a range are in a layout, where all are UNDEFINED.
fn is_in_undefined(range: &SubresourceRange, layout: Layout) -> bool
    ensures { result ≡ is_in_undefined range.now layout }
{
    range.levels == 0 || range.layers == 0 || layout == Layout::UNDEFINED
}

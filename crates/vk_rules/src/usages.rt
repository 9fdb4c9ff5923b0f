ghost use Rattle.std.specs.Prelude.{◌≡◌, ◌||◌, IfSome, is_some};
ghost use Rattle.std.specs.Option.{option_map};
ghost use Rattle.std.specs.List.{list_any};
ghost use Rattle.vk_model.specs.declared.command.Cmd.TheVariants as cmd;
ghost use Rattle.vk_model.specs.declared.command.Element.TheVariants as element;
ghost use Rattle.vk_model.specs.Basics.{holds, has_bits};
ghost use Rattle.vk_model.specs.Trace.Objects.{resource};
ghost use Rattle.vk_model.specs.Rules.Sizes as rules;
ghost use Rattle.vk_model.specs.Trace.PointViews.{action_of, point_of};
ghost use Rattle.vk_history.specs.PointViews.{past};
ghost use Rattle.vk_rules.specs.Usages.{IsUsage, IsLack};
ghost use Rattle.vk_rules.specs.Inner.Usages.{IsLackOf, AreLacks, IsElementLack};

use bitflags::Flags;
use vk_history::History;
use vk_model::{Action, Cmd, Element, Entry, ImageElement, Layout, Point, Usage};

/// All usages that there are.
const KNOWN_USAGES: u32 = 3;

/// What a usage is needed for.
#[derive(Clone, Copy)]
pub enum Purpose {
    /// The command copies from the resource.
    Source,
    /// The command writes to the resource.
    Destination,
    /// The dependency element of this index brings the image to a layout for that.
    Layout(usize),
}

/// A resource that is used without the usage that this needs.
#[derive(Clone, Copy)]
pub struct UsageLack {
    /// What it's used for.
    pub purpose: Purpose,
    /// The id of the resource.
    pub resource: u32,
    /// What it was made for; none where the id is of no resource.
    pub usage: Option<Usage>,
    /// The usage that it needs.
    pub needed: Usage,
}

/// USAGE: what is compared.
#[derive(Clone, Copy)]
pub enum UsageMeasure {
    /// The usage that a resource is made with: none, or one that isn't known.
    Made(Usage),
    /// The usage that a resource was made with, and the one that is needed.
    Lacks(UsageLack),
}

/// USAGE: a resource for nothing or for what isn't known, or one that is used for what it wasn't made
/// for.
pub fn breaks_usage(history: &History<'_>, point: &Point<'_>) -> bool
    ensures { result ≡ rules.breaks_usage (past history.now) (point_of point.now) }
{
    usage_of(history, point).is_some()
}

/// USAGE: with which usage a point makes a resource, or which usage a resource lacks that it names.
pub fn usage_of(history: &History<'_>, point: &Point<'_>) -> Option<UsageMeasure>
    ensures broken { is_some result ≡ rules.breaks_usage (past history.now) (point_of point.now) }
    ensures reported { IfSome result (IsUsage (past history.now) (action_of point.now.action)) }
{
    match point.action {
        Action::Host(Entry::Buffer { info, .. }) => of_made(info.usage),
        Action::Host(Entry::Image { info, .. }) => of_made(info.usage),
        Action::Run(command) => {
            let lack = of_command(history, command)?;
            Some(UsageMeasure::Lacks(lack))
        }
        _ => None,
    }
}

fn of_made(usage: Usage) -> Option<UsageMeasure>
    ensures broken { is_some result ≡ rules.is_outside 3 usage.0 }
    ensures reported { IfSome result (λ m. m ≡ UsageMeasure.Made usage) }
{
    if usage.bits() == 0 || usage.bits() > KNOWN_USAGES {
        Some(UsageMeasure::Made(usage))
    } else {
        None
    }
}

fn of_command(history: &History<'_>, command: &Cmd) -> Option<UsageLack>
    ensures broken { is_some result ≡ rules.bad_usage (past history.now) command.now }
    ensures reported { IfSome result (IsLack (past history.now) command.now) }
{
    match command {
        Cmd::Fill { buffer, .. } => of_destination(history, *buffer),
        Cmd::Update { buffer, .. } => of_destination(history, *buffer),
        Cmd::Copy {
            source,
            destination,
            ..
        } => of_copy(history, *source, *destination),
        Cmd::Clear { image, .. } => of_destination(history, *image),
        Cmd::CopyIn { buffer, image, .. } => of_copy(history, *buffer, *image),
        Cmd::CopyOut { image, buffer, .. } => of_copy(history, *image, *buffer),
        Cmd::CopyImage {
            source,
            destination,
            ..
        } => of_copy(history, *source, *destination),
        Cmd::Barrier { elements } => of_elements(history, elements.as_slice()),
        _ => None,
    }
}

fn of_copy(history: &History<'_>, source: u32, destination: u32) -> Option<UsageLack>
    ensures broken { is_some result ≡ (rules.lacks (past history.now) 1 source || rules.lacks (past history.now) 2 destination) }
    ensures reported { IfSome result (AreLacks (past history.now) source destination) }
{
    match lack(history, Purpose::Source, source, Usage::TRANSFER_SRC) {
        Some(lack) => Some(lack),
        None => of_destination(history, destination),
    }
}

fn of_destination(history: &History<'_>, resource: u32) -> Option<UsageLack>
    ensures broken { is_some result ≡ rules.lacks (past history.now) 2 resource }
    ensures reported { IfSome result (IsLackOf (past history.now) Purpose.Destination resource 2) }
{
    lack(history, Purpose::Destination, resource, Usage::TRANSFER_DST)
}

/// The usage that a resource lacks.
fn lack(history: &History<'_>, purpose: Purpose, resource: u32, needed: Usage) -> Option<UsageLack>
    ensures broken { is_some result ≡ rules.lacks (past history.now) needed.0 resource }
    ensures reported { IfSome result (IsLackOf (past history.now) purpose resource needed.0) }
{
    let usage = made_for(history, resource);
    if has(usage, needed) {
        None
    } else {
        Some(UsageLack {
            purpose,
            resource,
            usage,
            needed,
        })
    }
}

/// What a resource was made for.
fn made_for(history: &History<'_>, id: u32) -> Option<Usage>
    ensures { option_map (λ u. u.0) result ≡ option_map (λ r. r.usage) (resource (past history.now) id) }
{
    match history.made(id) {
        Some(Entry::Buffer { info, .. }) => Some(info.usage),
        Some(Entry::Image { info, .. }) => Some(info.usage),
        _ => None,
    }
}

fn has(usage: Option<Usage>, needed: Usage) -> bool
    ensures { result ≡ holds (option_map (λ u. u.0) usage) (λ u. has_bits u needed.0) }
{
    match usage {
        Some(usage) => usage.contains(needed),
        None => false,
    }
}

fn of_elements(history: &History<'_>, elements: &[Element]) -> Option<UsageLack>
    ensures broken { is_some result ≡ list_any (rules.layout_lacks (past history.now)) elements.now }
    ensures reported { IfSome result (IsLack (past history.now) (cmd.Barrier elements.now)) }
{
    for (index, element) in elements.iter().enumerate() {
        if let Some(lack) = of_element(history, index, element) {
            return Some(lack);
        }
    }
    None
}

fn of_element(history: &History<'_>, index: usize, element: &Element) -> Option<UsageLack>
    ensures broken { is_some result ≡ rules.layout_lacks (past history.now) element.now }
    ensures reported { IfSome result (IsElementLack (past history.now) index element.now) }
{
    match element {
        Element::Image(on_image) => of_transition(history, index, on_image),
        _ => None,
    }
}

/// The usage that an image lacks for the layout that it goes to.
fn of_transition(history: &History<'_>, index: usize, on_image: &ImageElement) -> Option<UsageLack>
    ensures broken { is_some result ≡ rules.layout_lacks (past history.now) (element.Image on_image.now) }
    ensures reported { IfSome result (IsElementLack (past history.now) index (element.Image on_image.now)) }
{
    let code = on_image.new_layout.code();
    if on_image.old_layout.code() == code {
        return None;
    }
    if code == Layout::TRANSFER_SRC_OPTIMAL.code() {
        lack(
            history,
            Purpose::Layout(index),
            on_image.image,
            Usage::TRANSFER_SRC,
        )
    } else if code == Layout::TRANSFER_DST_OPTIMAL.code() {
        lack(
            history,
            Purpose::Layout(index),
            on_image.image,
            Usage::TRANSFER_DST,
        )
    } else {
        None
    }
}

ghost use Rattle.std.specs.Prelude.{◌≡◌, ◌∷◌, [], ℕ};
ghost use Rattle.vk_model.specs.Basics.{among, option_list};
ghost use Rattle.vk_model.specs.World.Ownership as ownership;
ghost use Rattle.vk_model.specs.Sync.Complete.{named_by_act};
ghost use Rattle.vk_order.specs.NodeViews.{act_of};
ghost use Rattle.vk_findings.specs.Inner.Uses.{has};

use vk_model::{Cmd, Element};
use vk_order::Act;

/// A place of a command: its entry, its batch, and its place among the commands.
#[derive(Clone, Copy)]
pub struct Spot {
    /// The number of its entry.
    pub entry: usize,
    /// The number of its batch in the submit.
    pub batch: usize,
    /// Its place among the batch's commands.
    pub place: usize,
}

/// The resources that a node names, at most two.
#[derive(Clone, Copy)]
pub struct Named {
    /// One of them.
    pub first: Option<u32>,
    /// The other.
    pub second: Option<u32>,
}

impl Named {
    /// Whether a resource is one of them.
    pub fn has(&self, resource: u32) -> bool
        ensures { result ≡ has self.now resource }
    {
        self.first == Some(resource) || self.second == Some(resource)
    }
}

/// The resources that a node names.
pub fn named_by(act: &Act<'_>) -> Named
    ensures { (r : ℕ) → has result r ≡ among r (named_by_act (act_of act.now)) }
{
    match act {
        Act::Runs(command) => used_by(command),
        Act::Barrier(element) => one(named_by_element(element)),
        _ => one(None),
    }
}

/// The resources that a clear or copy command uses.
pub fn used_by(command: &Cmd) -> Named
    ensures { (r : ℕ) → has result r ≡ among r (ownership.uses command.now) }
{
    match command {
        Cmd::Fill { buffer, .. } | Cmd::Update { buffer, .. } => one(Some(*buffer)),
        Cmd::Copy {
            source,
            destination,
            ..
        }
        | Cmd::CopyImage {
            source,
            destination,
            ..
        } => two(*source, *destination),
        Cmd::Clear { image, .. } => one(Some(*image)),
        Cmd::CopyIn { buffer, image, .. } => two(*buffer, *image),
        Cmd::CopyOut { buffer, image, .. } => two(*image, *buffer),
        _ => one(None),
    }
}

/// The resource that an element names.
pub fn named_by_element(element: &Element) -> Option<u32>
    ensures { result ≡ ownership.named_by element.now }
{
    match element {
        Element::Memory(_) => None,
        Element::Buffer(on_buffer) => Some(on_buffer.buffer),
        Element::Image(on_image) => Some(on_image.image),
    }
}

fn one(first: Option<u32>) -> Named
    ensures { (r : ℕ) → has result r ≡ among r (option_list first) }
{
    Named {
        first,
        second: None,
    }
}

fn two(first: u32, second: u32) -> Named
    ensures { (r : ℕ) → has result r ≡ among r (first ∷ second ∷ []) }
{
    Named {
        first: Some(first),
        second: Some(second),
    }
}

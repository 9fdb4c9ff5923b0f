ghost use Rattle.std.specs.Prelude.{◌≡◌, ◌||◌, not, IfSome, is_some, false};
ghost use Rattle.std.specs.List.{list_any};
ghost use Rattle.vk_model.specs.declared.command.Cmd.TheVariants as cmd;
ghost use Rattle.vk_model.specs.Basics.{has_bits, has_some};
ghost use Rattle.vk_model.specs.Sync.Edge.{host_stage};
ghost use Rattle.vk_model.specs.Trace.Point as spec;
ghost use Rattle.vk_model.specs.World.Ownership.{dependency_of};
ghost use Rattle.vk_model.specs.Rules.Synchronization as rules;
ghost use Rattle.vk_model.specs.Rules.Synchronization.{known_stages};
ghost use Rattle.vk_model.specs.Trace.PointViews.{action_of};
ghost use Rattle.vk_rules.specs.Synchronization.{IsStage, IsUnfit, is_barring};
ghost use Rattle.vk_rules.specs.Inner.Synchronization.{AreMasks, AreMasksAt, AreEventMasks, AreEventMasksAt};

use crate::items::Item;
use bitflags::Flags;
use vk_model::{Accesses, Action, Cmd, Dependency, Element, Point, Stages};

/// All stages that there are.
const KNOWN_STAGES: Stages = Stages(Stages::TRANSFER.0 | Stages::HOST.0 | Stages::ALL_COMMANDS.0);

/// The stages of transfer commands: ALL_COMMANDS has TRANSFER.
const TRANSFERS: Stages = Stages(Stages::TRANSFER.0 | Stages::ALL_COMMANDS.0);

/// The accesses that only transfer commands make.
const BY_TRANSFERS: Accesses = Accesses(Accesses::TRANSFER_READ.0 | Accesses::TRANSFER_WRITE.0);

/// The accesses that only the host makes.
const BY_HOST: Accesses = Accesses(Accesses::HOST_READ.0 | Accesses::HOST_WRITE.0);

/// All accesses that there are.
const KNOWN_ACCESSES: Accesses = Accesses(
    BY_TRANSFERS.0 | BY_HOST.0 | Accesses::MEMORY_READ.0 | Accesses::MEMORY_WRITE.0,
);

/// Where masks stand.
#[derive(Clone, Copy)]
pub enum Side {
    /// In the first scope of a dependency.
    Source,
    /// In the second scope of a dependency.
    Destination,
    /// In a wait or a signal of a batch.
    Submit,
}

/// What is wrong with masks.
#[derive(Clone, Copy)]
pub enum MaskFault {
    /// A stage that isn't known.
    UnknownStage,
    /// An access that isn't known.
    UnknownAccess,
    /// These accesses, which are of transfers alone, and neither TRANSFER nor ALL_COMMANDS among the
    /// stages.
    NoTransfer(Accesses),
    /// These accesses, which are of the host alone, and HOST isn't among the stages.
    NoHost(Accesses),
    /// HOST, in what an event's element comes after, or in a wait or a signal of a batch.
    HostStage,
}

/// STAGE: the masks that are wrong.
#[derive(Clone, Copy)]
pub struct BadMasks {
    /// The dependency element, or the only item of a wait or a signal.
    pub item: Item,
    /// Where the masks stand.
    pub side: Side,
    /// The stages there.
    pub stages: Stages,
    /// The accesses there; none in a wait or a signal.
    pub accesses: Accesses,
    /// What is wrong with them.
    pub fault: MaskFault,
}

/// STAGE: a stage or an access that isn't known, an access that none of the stages makes, or the host
/// in a wait or signal of a batch, or in what an event's element comes after.
pub fn breaks_stage(point: &Point<'_>) -> bool
    ensures { result ≡ rules.action_stages (action_of point.now.action) }
{
    stage_of(point).is_some()
}

/// STAGE: the first masks of a point that are wrong.
pub fn stage_of(point: &Point<'_>) -> Option<BadMasks>
    ensures broken { is_some result ≡ rules.action_stages (action_of point.now.action) }
    ensures reported { IfSome result (IsStage (action_of point.now.action)) }
{
    match point.action {
        Action::Host(_) => None,
        Action::Wait(submit) => of_submit(submit.stages),
        Action::Run(command) => of_command(command),
        Action::Signal(submit) => of_submit(submit.stages),
    }
}

fn of_submit(stages: Stages) -> Option<BadMasks>
    ensures broken { is_some result ≡ (not (has_bits known_stages stages.0) || has_some stages.0 host_stage) }
    ensures reported { IfSome result (AreMasks Item.Only Side.Submit stages.0 0) }
{
    let fault = submit_fault(stages)?;
    Some(BadMasks {
        item: Item::Only,
        side: Side::Submit,
        stages,
        accesses: Accesses(0),
        fault,
    })
}

fn submit_fault(stages: Stages) -> Option<MaskFault>
    ensures broken { is_some result ≡ (not (has_bits known_stages stages.0) || has_some stages.0 host_stage) }
    ensures reported { IfSome result (IsUnfit stages.0 0) }
{
    if !KNOWN_STAGES.contains(stages) {
        Some(MaskFault::UnknownStage)
    } else if stages.intersects(Stages::HOST) {
        Some(MaskFault::HostStage)
    } else {
        None
    }
}

fn of_command(command: &Cmd) -> Option<BadMasks>
    ensures broken { is_some result ≡ rules.bad_stages command.now }
    ensures reported { IfSome result (IsStage (spec.Run command.now)) }
{
    match command {
        Cmd::Barrier { elements } => of_elements(elements.as_slice()),
        Cmd::Set { elements, .. } => of_dependencies(elements.as_slice()),
        Cmd::Await { elements, .. } => of_dependencies(elements.as_slice()),
        _ => None,
    }
}

fn of_elements(elements: &[Element]) -> Option<BadMasks>
    ensures broken { is_some result ≡ list_any (λ e. rules.bad_dependency (dependency_of e)) elements.now }
    ensures reported { IfSome result (IsStage (spec.Run (cmd.Barrier elements.now))) }
{
    for (index, element) in elements.iter().enumerate() {
        if let Some(masks) = of_dependency(index, dependency(element)) {
            return Some(masks);
        }
    }
    None
}

fn dependency(element: &Element) -> &Dependency
    ensures { result.now ≡ dependency_of element.now }
{
    match element {
        Element::Memory(dependency) => dependency,
        Element::Buffer(on_buffer) => &on_buffer.dependency,
        Element::Image(on_image) => &on_image.dependency,
    }
}

/// The same of the elements of an event.
fn of_dependencies(elements: &[Dependency]) -> Option<BadMasks>
    ensures broken { is_some result ≡ list_any rules.bad_event_element elements.now }
    ensures reported { IfSome result (AreEventMasks elements.now) }
{
    for (index, element) in elements.iter().enumerate() {
        if let Some(masks) = of_event_element(index, element) {
            return Some(masks);
        }
    }
    None
}

fn of_event_element(index: usize, element: &Dependency) -> Option<BadMasks>
    ensures broken { is_some result ≡ rules.bad_event_element element.now }
    ensures reported { IfSome result (AreEventMasksAt index element.now) }
{
    match of_dependency(index, element) {
        Some(masks) => Some(masks),
        None if element.source_stages.intersects(Stages::HOST) => Some(BadMasks {
            item: Item::Element(index),
            side: Side::Source,
            stages: element.source_stages,
            accesses: element.source_accesses,
            fault: MaskFault::HostStage,
        }),
        None => None,
    }
}

fn of_dependency(index: usize, dependency: &Dependency) -> Option<BadMasks>
    ensures broken { is_some result ≡ rules.bad_dependency dependency.now }
    ensures reported { IfSome result (AreMasksAt index dependency.now) }
    ensures host { IfSome result (λ m. is_barring m.fault ≡ false) }
{
    let source = of_scope(
        index,
        Side::Source,
        dependency.source_stages,
        dependency.source_accesses,
    );
    match source {
        Some(masks) => Some(masks),
        None => of_scope(
            index,
            Side::Destination,
            dependency.destination_stages,
            dependency.destination_accesses,
        ),
    }
}

fn of_scope(index: usize, side: Side, stages: Stages, accesses: Accesses) -> Option<BadMasks>
    ensures broken { is_some result ≡ rules.bad_masks stages.0 accesses.0 }
    ensures reported { IfSome result (AreMasks (Item.Element index) side stages.0 accesses.0) }
    ensures host { IfSome result (λ m. is_barring m.fault ≡ false) }
{
    let fault = scope_fault(stages, accesses)?;
    Some(BadMasks {
        item: Item::Element(index),
        side,
        stages,
        accesses,
        fault,
    })
}

fn scope_fault(stages: Stages, accesses: Accesses) -> Option<MaskFault>
    ensures broken { is_some result ≡ rules.bad_masks stages.0 accesses.0 }
    ensures reported { IfSome result (IsUnfit stages.0 accesses.0) }
    ensures host { IfSome result (λ f. is_barring f ≡ false) }
{
    if !KNOWN_STAGES.contains(stages) {
        Some(MaskFault::UnknownStage)
    } else if !KNOWN_ACCESSES.contains(accesses) {
        Some(MaskFault::UnknownAccess)
    } else if accesses.intersects(BY_TRANSFERS) && !stages.intersects(TRANSFERS) {
        Some(MaskFault::NoTransfer(Accesses(accesses.0 & BY_TRANSFERS.0)))
    } else if accesses.intersects(BY_HOST) && !stages.intersects(Stages::HOST) {
        Some(MaskFault::NoHost(Accesses(accesses.0 & BY_HOST.0)))
    } else {
        None
    }
}

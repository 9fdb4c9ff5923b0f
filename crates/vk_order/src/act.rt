ghost use Rattle.std.specs.Prelude.{◌≡◌, ◌∷◌, [], IfOk, IfSome, map};
ghost use Rattle.vk_model.specs.Sync.Node.{acts, command_acts, event_acts, Depends, Barrier, SetOf, AwaitOf};
ghost use Rattle.vk_model.specs.Trace.PointViews.{action_of};
ghost use Rattle.vk_order.specs.NodeViews.{act_of};

use std::alloc::{AllocError, Global};
use vk_model::{Action, Cmd, Dependency, Element, Entry, SemaphoreSubmit};

/// What a node does.
#[derive(Clone, Copy)]
pub enum Act<'a> {
    /// An entry of the host.
    Hosts(&'a Entry),
    /// A wait of a batch.
    Waits(&'a SemaphoreSubmit),
    /// A signal of a batch.
    Signals(&'a SemaphoreSubmit),
    /// A clear or copy command.
    Runs(&'a Cmd),
    /// An element of a barrier.
    Barrier(&'a Element),
    /// The element of a set that has this index, of the event of this id.
    Set(u32, usize, &'a Dependency),
    /// The element of an await that has this index, of the event of this id.
    Await(u32, usize, &'a Dependency),
}

/// The act of what happens at a point where it has a single one; none for events.
pub fn single_act<'a>(action: Action<'a>) -> Option<Act<'a>>
    ensures { IfSome result (λ a. acts (action_of action.entry) ≡ act_of a ∷ []) }
{
    match action {
        Action::Host(entry) => Some(Act::Hosts(entry)),
        Action::Wait(wait) => Some(Act::Waits(wait)),
        Action::Signal(signal) => Some(Act::Signals(signal)),
        Action::Run(Cmd::Barrier { elements }) => single_element(elements.as_slice()),
        Action::Run(Cmd::Set { .. } | Cmd::Await { .. }) => None,
        Action::Run(command) => Some(Act::Runs(command)),
    }
}

/// The act of a barrier of a single element.
fn single_element<'a>(elements: &'a [Element]) -> Option<Act<'a>>
    ensures { IfSome result (λ a. map (Depends Barrier) elements.now ≡ act_of a ∷ []) }
{
    if elements.len() != 1 {
        return None;
    }
    Some(Act::Barrier(&elements[0]))
}

/// The acts of a point, in order.
pub fn acts_of<'a>(alloc: Global, action: Action<'a>) -> Result<Vec<Act<'a>>, AllocError>
    ensures { IfOk result (λ all. map act_of all.items ≡ acts (action_of action.entry)) }
{
    match action {
        Action::Host(entry) => one(alloc, Act::Hosts(entry)),
        Action::Wait(wait) => one(alloc, Act::Waits(wait)),
        Action::Signal(signal) => one(alloc, Act::Signals(signal)),
        Action::Run(command) => acts_of_command(alloc, command),
    }
}

fn one<'a>(alloc: Global, act: Act<'a>) -> Result<Vec<Act<'a>>, AllocError>
    ensures { IfOk result (λ all. all.items ≡ act.entry ∷ []) }
{
    let mut all = Vec::new(alloc);
    all.push(act)?;
    Ok(all)
}

fn acts_of_command<'a>(alloc: Global, command: &'a Cmd) -> Result<Vec<Act<'a>>, AllocError>
    ensures { IfOk result (λ all. map act_of all.items ≡ command_acts command.now) }
{
    match command {
        Cmd::Barrier { elements } => acts_of_barrier(alloc, elements.as_slice()),
        Cmd::Set { event, elements } => acts_of_set(alloc, *event, elements.as_slice()),
        Cmd::Await { event, elements } => acts_of_await(alloc, *event, elements.as_slice()),
        _ => one(alloc, Act::Runs(command)),
    }
}

#[tactic(auto, using(crate::proofs::ActLemmas::elements_pushed))]
fn acts_of_barrier<'a>(alloc: Global, elements: &'a [Element]) -> Result<Vec<Act<'a>>, AllocError>
    ensures { IfOk result (λ all. map act_of all.items ≡ map (Depends Barrier) elements.now) }
{
    let mut all = Vec::new(alloc);
    for element in elements {
        all.push(Act::Barrier(element))?;
    }
    Ok(all)
}

#[tactic(auto, using(crate::proofs::ActLemmas::dependencies_pushed))]
fn acts_of_set<'a>(
    alloc: Global,
    event: u32,
    elements: &'a [Dependency],
) -> Result<Vec<Act<'a>>, AllocError>
    ensures { IfOk result (λ all. map act_of all.items ≡ event_acts (SetOf event) elements.now) }
{
    let mut all = Vec::new(alloc);
    for (k, element) in elements.iter().enumerate() {
        all.push(Act::Set(event, k, element))?;
    }
    Ok(all)
}

#[tactic(auto, using(crate::proofs::ActLemmas::dependencies_pushed))]
fn acts_of_await<'a>(
    alloc: Global,
    event: u32,
    elements: &'a [Dependency],
) -> Result<Vec<Act<'a>>, AllocError>
    ensures { IfOk result (λ all. map act_of all.items ≡ event_acts (AwaitOf event) elements.now) }
{
    let mut all = Vec::new(alloc);
    for (k, element) in elements.iter().enumerate() {
        all.push(Act::Await(event, k, element))?;
    }
    Ok(all)
}

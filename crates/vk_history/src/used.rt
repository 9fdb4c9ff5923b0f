ghost use Rattle.std.specs.Prelude.{◌≡◌, ◌++◌, ◌+◌, ◌-◌, ◌==◌, [], ℕ, OnOk, if◌then◌else◌};
ghost use Rattle.std.specs.List.{flat_map};
ghost use Rattle.vk_model.specs.Basics.{option_list};
ghost use Rattle.vk_model.specs.Trace.Point.{Run};
ghost use Rattle.vk_model.specs.World.Ownership as ownership;
ghost use Rattle.vk_history.specs.Counted.{count_at, is_id};
ghost use Rattle.vk_history.specs.Uses.{times_by, times_named, times_in, times_of};

use crate::counts::Counts;
use std::alloc::AllocError;
use vk_model::{Batch, Cmd, Element};

/// The resources that a clear or copy command uses, its source first.
#[derive(Clone, Copy)]
pub struct Used {
    /// The id of the only one, or of the source.
    pub first: Option<u32>,
    /// The id of the destination, where there is a source.
    pub second: Option<u32>,
}

/// What a command uses; nothing, where it is no clear or copy.
pub fn used_by(command: &Cmd) -> Used
    ensures { option_list result.first ++ option_list result.second ≡ ownership.uses command.now }
{
    let (first, second) = match command {
        Cmd::Fill { buffer, .. } | Cmd::Update { buffer, .. } => (Some(*buffer), None),
        Cmd::Clear { image, .. } => (Some(*image), None),
        Cmd::Copy {
            source,
            destination,
            ..
        } => (Some(*source), Some(*destination)),
        Cmd::CopyImage {
            source,
            destination,
            ..
        } => (Some(*source), Some(*destination)),
        Cmd::CopyIn { buffer, image, .. } => (Some(*buffer), Some(*image)),
        Cmd::CopyOut { image, buffer, .. } => (Some(*image), Some(*buffer)),
        Cmd::Barrier { .. } | Cmd::Set { .. } | Cmd::Await { .. } => (None, None),
    };
    Used { first, second }
}

/// The resource that an element names.
pub fn named_by(element: &Element) -> Option<u32>
    ensures { result ≡ ownership.named_by element.now }
{
    match element {
        Element::Memory(_) => None,
        Element::Buffer(range) => Some(range.buffer),
        Element::Image(range) => Some(range.image),
    }
}

/// Counts how often the commands of batches name each resource.
pub fn count_batches(counts: &mut Counts, batches: &[Batch]) -> Result<(), AllocError>
    ensures { OnOk result ((r : ℕ) → count_at counts.new r ≡ count_at counts.old r + times_in r batches.now) }
{
    for batch in batches {
        count_commands(counts, batch.commands.as_slice())?;
    }
    Ok(())
}

fn count_commands(counts: &mut Counts, commands: &[Cmd]) -> Result<(), AllocError>
    ensures { OnOk result ((r : ℕ) → count_at counts.new r ≡ count_at counts.old r + times_of r commands.now) }
{
    for command in commands {
        count_command(counts, command)?;
    }
    Ok(())
}

fn count_command(counts: &mut Counts, command: &Cmd) -> Result<(), AllocError>
    ensures { OnOk result ((r : ℕ) → count_at counts.new r ≡ count_at counts.old r + times_named r (Run command.now)) }
{
    match command {
        Cmd::Barrier { elements } => {
            count_elements(counts, elements.as_slice())?;
            Ok(())
        }
        _ => {
            let used = used_by(command);
            count_id(counts, used.first)?;
            count_id(counts, used.second)?;
            Ok(())
        }
    }
}

fn count_elements(counts: &mut Counts, elements: &[Element]) -> Result<(), AllocError>
    ensures { OnOk result ((r : ℕ) → count_at counts.new r ≡ count_at counts.old r + times_by r elements.now) }
{
    for element in elements {
        count_id(counts, named_by(element))?;
    }
    Ok(())
}

fn count_id(counts: &mut Counts, id: Option<u32>) -> Result<(), AllocError>
    ensures { OnOk result ((r : ℕ) → count_at counts.new r ≡ count_at counts.old r + (if is_id r id then 1 else 0)) }
{
    match id {
        Some(id) => counts.add(id),
        None => Ok(()),
    }
}

/// Takes back what was counted of a command.
pub fn discount_command(counts: &mut Counts, command: &Cmd)
    ensures { (r : ℕ) → count_at counts.new r ≡ count_at counts.old r - times_named r (Run command.now) }
{
    match command {
        Cmd::Barrier { elements } => discount_elements(counts, elements.as_slice()),
        _ => {
            let used = used_by(command);
            discount_id(counts, used.first);
            discount_id(counts, used.second);
        }
    }
}

fn discount_elements(counts: &mut Counts, elements: &[Element])
    ensures { (r : ℕ) → count_at counts.new r ≡ count_at counts.old r - times_by r elements.now }
{
    for element in elements {
        discount_id(counts, named_by(element));
    }
}

fn discount_id(counts: &mut Counts, id: Option<u32>)
    ensures { (r : ℕ) → count_at counts.new r ≡ count_at counts.old r - (if is_id r id then 1 else 0) }
{
    if let Some(id) = id {
        counts.remove(id);
    }
}

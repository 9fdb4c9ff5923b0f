ghost use Rattle.std.specs.Prelude.{◌≡◌, ◌&&◌};
ghost use Rattle.vk_model.specs.Basics.{has_some};
ghost use Rattle.vk_order.specs.Lines.{has_transfer, has_host};
ghost use Rattle.vk_model.specs.Sync.Seen.{Write, command_mask, host_mask};
ghost use Rattle.vk_order.specs.NodeViews.{act_of};
ghost use Rattle.vk_order.specs.Wide.{access_of};
ghost use Rattle.vk_order.specs.Inner.Rows.{makes_queue_available, makes_all_visible, makes_all_visible_on_host};

use crate::act::Act;
use crate::acts::TRANSFERS;
use bitflags::Flags;
use vk_model::{Accesses, Dependency, Element, Stages};

/// How memory is accessed.
#[derive(Clone, Copy)]
pub enum Access {
    /// It is read.
    Read,
    /// It is written.
    Write,
}

impl Access {
    /// The accesses of commands that are such.
    pub(crate) fn of_commands(self) -> Accesses
        ensures { result.0 ≡ command_mask (access_of self) }
    {
        match self {
            Access::Read => Accesses(Accesses::TRANSFER_READ.0 | Accesses::MEMORY_READ.0),
            Access::Write => Accesses(Accesses::TRANSFER_WRITE.0 | Accesses::MEMORY_WRITE.0),
        }
    }

    /// The host's accesses that are such.
    pub(crate) fn of_host(self) -> Accesses
        ensures { result.0 ≡ host_mask (access_of self) }
    {
        match self {
            Access::Read => Accesses(Accesses::HOST_READ.0 | Accesses::MEMORY_READ.0),
            Access::Write => Accesses(Accesses::HOST_WRITE.0 | Accesses::MEMORY_WRITE.0),
        }
    }
}

impl Act<'_> {
    /// Whether it makes the writes of all bytes by the commands before it on its queue available.
    pub(crate) fn makes_queue_available(&self) -> bool
        ensures { result ≡ makes_queue_available (act_of self.now) }
    {
        match self {
            Act::Signals(signal) => signal.stages.intersects(TRANSFERS),
            Act::Barrier(Element::Memory(dependency)) => makes_writes_of_all_available(dependency),
            Act::Set(_, _, dependency) => makes_writes_of_all_available(dependency),
            _ => false,
        }
    }

    /// Whether it makes available writes of all bytes visible to an access by commands after it.
    pub(crate) fn makes_all_visible(&self, access: Access) -> bool
        ensures { result ≡ makes_all_visible (access_of access) (act_of self.now) }
    {
        match self {
            Act::Waits(_) => true,
            Act::Barrier(Element::Memory(dependency)) => ends_in(dependency, access.of_commands()),
            Act::Await(_, _, dependency) => ends_in(dependency, access.of_commands()),
            _ => false,
        }
    }

    /// The same to an access by the host.
    pub(crate) fn makes_all_visible_on_host(&self, access: Access) -> bool
        ensures { result ≡ makes_all_visible_on_host (access_of access) (act_of self.now) }
    {
        match self {
            Act::Barrier(Element::Memory(dependency)) => ends_on_host(dependency, access),
            Act::Await(_, _, dependency) => ends_on_host(dependency, access),
            _ => false,
        }
    }
}

/// Whether a dependency makes commands' writes available.
fn makes_writes_of_all_available(dependency: &Dependency) -> bool
    ensures { result ≡ (has_some dependency.now.source_accesses.0 (command_mask Write) && has_transfer dependency.now.source_stages.0) }
{
    dependency
        .source_accesses
        .intersects(Access::Write.of_commands())
        && dependency.source_stages.intersects(TRANSFERS)
}

/// Whether a dependency ends in one of these accesses.
fn ends_in(dependency: &Dependency, accesses: Accesses) -> bool
    ensures { result ≡ has_some dependency.now.destination_accesses.0 accesses.0 }
{
    dependency.destination_accesses.intersects(accesses)
}

/// Whether a dependency ends in an access by the host.
fn ends_on_host(dependency: &Dependency, access: Access) -> bool
    ensures { result ≡ (has_host dependency.now.destination_stages.0 && has_some dependency.now.destination_accesses.0 (host_mask (access_of access))) }
{
    dependency.destination_stages.intersects(Stages::HOST) && ends_in(dependency, access.of_host())
}

ghost use Rattle.std.specs.Prelude.{◌≡◌, ◌+◌, ◌≤◌, not, length};
ghost use Rattle.vk_touches.specs.Bytes.{HaveNumbers};
ghost use Rattle.vk_touches.specs.Conflicts.{Misses, MissesAt, MissesRead, MissesWrite, IsEarly, HasEarlyCommand, FoundIn, FoundAt};

use crate::resource_contents::ResourceContents;
use vk_order::NewNode;
use vk_touches::{Part, ResourceAccess, TransitionAccess};

impl ResourceContents {
    /// Whether a byte of a range has a last write, by a command or the host, or a last layout
    /// transition that an access by a command doesn't see.
    pub fn has_missed(&self, offset: u64, size: u64, by: &ResourceAccess<'_>) -> bool
        requires { HaveNumbers by.now.bytes (length self.now.touches) }
        ensures { offset + size ≤ length self.now.touches → FoundAt (Misses self.now.is_cached by.now) result self.now.touches offset (offset + size) }
    {
        let part = Part::of(offset, 0, size, self.touches.len());
        by.misses_some(&self.touches, part.low, part.high, self.is_cached)
    }

    /// Whether one has a last write by a command that a read by the host doesn't see.
    pub fn has_missed_read(&self, offset: u64, size: u64, by: &ResourceAccess<'_>) -> bool
        requires { HaveNumbers by.now.bytes (length self.now.touches) }
        ensures { offset + size ≤ length self.now.touches → FoundAt (MissesRead self.now.is_cached by.now) result self.now.touches offset (offset + size) }
    {
        let part = Part::of(offset, 0, size, self.touches.len());
        by.misses_some_read(&self.touches, part.low, part.high, self.is_cached)
    }

    /// Whether one has a last write by a command that a write by the host doesn't see.
    pub fn has_missed_write(&self, offset: u64, size: u64, by: &ResourceAccess<'_>) -> bool
        requires { HaveNumbers by.now.bytes (length self.now.touches) }
        ensures { offset + size ≤ length self.now.touches → FoundAt (MissesWrite by.now) result self.now.touches offset (offset + size) }
    {
        let part = Part::of(offset, 0, size, self.touches.len());
        by.misses_some_write(&self.touches, part.low, part.high)
    }

    /// Whether one has a last write by a command or a last layout transition that another layout
    /// transition doesn't see.
    pub fn has_missed_at(&self, offset: u64, size: u64, by: &TransitionAccess<'_>) -> bool
        requires { HaveNumbers by.now.bytes (length self.now.touches) }
        ensures { offset + size ≤ length self.now.touches → FoundAt (MissesAt by.now) result self.now.touches offset (offset + size) }
    {
        let part = Part::of(offset, 0, size, self.touches.len());
        by.misses_some(&self.touches, part.low, part.high)
    }

    /// Whether one has a last read, by the host or by a command of some queue, or a last layout
    /// transition that doesn't come before a command.
    pub fn has_early(&self, offset: u64, size: u64, new_node: &NewNode<'_>) -> bool
        ensures { offset + size ≤ length self.now.touches → FoundIn (IsEarly new_node.now) result self.now.touches offset (offset + size) }
    {
        let part = Part::of(offset, 0, size, self.touches.len());
        self.touches.has_early(part.low, part.high, new_node)
    }

    /// Whether one has a last read by a command of some queue that doesn't come before an entry of
    /// the host.
    pub fn has_early_command(&self, offset: u64, size: u64, new_node: &NewNode<'_>) -> bool
        ensures { offset + size ≤ length self.now.touches → FoundIn (HasEarlyCommand new_node.now) result self.now.touches offset (offset + size) }
    {
        let part = Part::of(offset, 0, size, self.touches.len());
        self.touches
            .has_early_command(part.low, part.high, new_node)
    }

    /// Whether a byte of a range is undefined.
    pub fn has_undefined(&self, offset: u64, size: u64) -> bool
        ensures { offset + size ≤ length self.now.defined → FoundIn (λ r d. r ≡ not d) result self.now.defined offset (offset + size) }
    {
        let part = Part::of(offset, 0, size, self.defined.len());
        self.defined
            .find(part.low, part.high, |is_defined| !*is_defined)
            .is_some()
    }
}

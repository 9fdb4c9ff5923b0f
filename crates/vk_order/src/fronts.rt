ghost use Rattle.std.specs.Prelude.{◌≡◌, ◌∷◌, ◌||◌, ◌<◌, ◌^◌, ℕ, Bool, List, IfOk, OnOk, IsTrue, true, false, IsSome, is_some, length, option_map};
ghost use Rattle.std.specs.Option.{option_copied};
ghost use Rattle.vk_model.specs.Sync.Node.{Node};
ghost use Rattle.vk_model.specs.Sync.Before.{IsNumbered};
ghost use Rattle.vk_order.specs.declared.lines.Line.{Line as AnyLine};
ghost use Rattle.vk_order.specs.Inner.Clocks.{IsWhole};
ghost use Rattle.vk_order.specs.Inner.Fronts.{clock_in, IsFront, IsNamed, IsOwnFront};

use crate::counts::{Counts, copy_in, cover, join_in};
use std::alloc::{AllocError, Global};

/// What comes after some nodes: the counts for each line, in the order of the lines, where those of
/// no node at the end may be left out.
#[derive(Drop)]
pub struct Front {
    /// The counts for each line.
    pub counts: Vec<Counts>,
}

impl Front {
    /// What comes after no node.
    pub fn new(alloc: Global) -> Front
        ensures { (ns : List Node) (ls : List AnyLine) → IsFront ns ls (λ k. false) result }
    {
        Front {
            counts: Vec::new(alloc),
        }
    }

    /// The same, with room for the counts of so many lines.
    fn with_room(alloc: Global, lines: usize) -> Result<Front, AllocError>
        ensures { IfOk result (λ front. (ns : List Node) (ls : List AnyLine) → IsFront ns ls (λ k. false) front) }
    {
        let counts = Vec::with_capacity(alloc, lines)?;
        Ok(Front { counts })
    }

    /// Comes after no node.
    pub fn empty(&mut self)
        ensures { (ns : List Node) (ls : List AnyLine) → IsFront ns ls (λ k. false) self.new }
    {
        self.counts.clear();
    }

    /// Comes after the nodes of another one too; where it is the first one, after these alone.
    pub fn take_in(&mut self, is_first: bool, other: &Front) -> Result<(), AllocError>
        ensures first { is_first ≡ true → OnOk result ((ns : List Node) (ls : List AnyLine) (g : Node → Bool) → IsFront ns ls g other.now → IsFront ns ls g self.new) }
        ensures both { is_first ≡ false → OnOk result ((ns : List Node) (ls : List AnyLine) (f g : Node → Bool) → IsFront ns ls f self.old → IsFront ns ls g other.now → IsFront ns ls (λ k. f k || g k) self.new) }
    {
        if is_first {
            copy_in(&mut self.counts, other.counts.as_slice())?;
            return Ok(());
        }
        self.join(other)?;
        Ok(())
    }

    /// Comes after the nodes of another one too.
    pub fn join(&mut self, other: &Front) -> Result<(), AllocError>
        ensures both { OnOk result ((ns : List Node) (ls : List AnyLine) (f g : Node → Bool) → IsFront ns ls f self.old → IsFront ns ls g other.now → IsFront ns ls (λ k. f k || g k) self.new) }
        ensures grown { OnOk result ((ns : List Node) (ls : List AnyLine) (test : Node → Bool) (n : Node) → IsNumbered (n ∷ ns) → test n ≡ true → IsWhole (n ∷ ns) test → IsFront ns ls test self.old → IsOwnFront ns ls n other.now → IsFront (n ∷ ns) ls test self.new) }
    {
        join_in(&mut self.counts, other.counts.as_slice())?;
        Ok(())
    }

    /// Comes after a node that comes next too, of which this is the front: the one of the two that
    /// comes after the other one is taken as it is, and its room is left to the other one.
    pub fn grow(&mut self, own: &mut Front) -> Result<(), AllocError>
        ensures { OnOk result ((ns : List Node) (ls : List AnyLine) (test : Node → Bool) (n : Node) → IsNumbered (n ∷ ns) → test n ≡ true → IsWhole (n ∷ ns) test → IsFront ns ls test self.old → IsOwnFront ns ls n own.old → IsFront (n ∷ ns) ls test self.new) }
    {
        if cover(own.counts.as_slice(), self.counts.as_slice()) {
            std::mem::swap(self, own);
            return Ok(());
        }
        self.join(own)?;
        Ok(())
    }

    /// Comes after the nodes of another one too, if there is one.
    pub fn join_named(&mut self, named: Option<&Front>) -> Result<(), AllocError>
        ensures { OnOk result ((ns : List Node) (ls : List AnyLine) (f g : Node → Bool) → IsFront ns ls f self.old → IsNamed ns ls g (option_copied named.entry) → IsFront ns ls (λ k. f k || g k) self.new) }
    {
        let Some(other) = named else {
            return Ok(());
        };
        self.join(other)?;
        Ok(())
    }

    /// The clock of it.
    pub fn clock(&self, alloc: Global) -> Result<Vec<u32>, AllocError>
        ensures { IfOk result (λ clock. clock.items ≡ clock_in self.now) }
    {
        let clock = self.counts.iter().map(|own| own.clock).collect(alloc)?;
        Ok(clock)
    }

    /// The same front once more.
    pub fn copied(&self, alloc: Global) -> Result<Front, AllocError>
        ensures { IfOk result (λ copy. (ns : List Node) (ls : List AnyLine) (test : Node → Bool) → IsFront ns ls test self.now → IsFront ns ls test copy) }
    {
        let mut copy = Front::with_room(alloc, self.counts.len())?;
        copy.join(self)?;
        Ok(copy)
    }
}

/// What comes after the nodes of a name, and after one more that is of the name.
pub fn named_with(alloc: Global, named: Option<&Front>, own: &Front) -> Result<Front, AllocError>
    ensures { IfOk result (λ more. (ns : List Node) (ls : List AnyLine) (test : Node → Bool) (n : Node) → IsNumbered (n ∷ ns) → test n ≡ true → IsWhole (n ∷ ns) test → IsNamed ns ls test (option_copied named.entry) → IsOwnFront ns ls n own.now → IsNamed (n ∷ ns) ls test (Some more)) }
{
    let Some(front) = named else {
        let mut more = Front::with_room(alloc, own.counts.len())?;
        more.join(own)?;
        return Ok(more);
    };
    let mut more = front.copied(alloc)?;
    more.join(own)?;
    Ok(more)
}

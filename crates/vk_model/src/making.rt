ghost use Rattle.std.specs.Prelude.{◌≡◌};
ghost use Rattle.vk_model.specs.Trace.Objects.{made_by};

use crate::entry::Entry;

impl Entry {
    /// The id that the entry makes, where it makes an object.
    pub fn made_id(&self) -> Option<u32>
        ensures { result ≡ made_by self.now }
    {
        match self {
            Entry::Pool { id, .. }
            | Entry::Buffer { id, .. }
            | Entry::Image { id, .. }
            | Entry::Memory { id, .. }
            | Entry::Semaphore { id, .. }
            | Entry::Event { id }
            | Entry::Defrag { id, .. } => Some(*id),
            _ => None,
        }
    }
}

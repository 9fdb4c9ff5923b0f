ghost use Rattle.std.specs.Prelude.{◌≡◌, IfOk, IsOk, OnErr, IsErrOf};
ghost use Rattle.vk_model.specs.Memory.Suballocation.{IsRequest};

use crate::linear::Linear;
use vk_model::{Kind, SubFault, Suballoc};

// A read of a field makes the block's invariant known to the prover: each method begins with one.
/// A request is one for the lower stack, or else for the start of a ring.
impl Suballoc for Linear {
    ghost use Rattle.std.specs.Prelude.{IsTrue, is_some};
    ghost use Rattle.vk_model.specs.Memory.Room.{lower_place};
    ghost use Rattle.vma_linear.specs.SoundRanges.{sound_taken, ranges_sound};

    ghost size = { λ b. b.size };

    ghost taken = { sound_taken };

    ghost can_hold = { λ b r. IsTrue (is_some (lower_place b r)) };

    fn allocate(&mut self, bytes: u64, align: u64, kind: Kind) -> Result<u64, SubFault> {
        let _block = &self.size;
        self.allocate_lower(bytes, align, kind)
    }

    fn free(&mut self, start: u64) {
        let _block = &self.size;
        self.give_back(start);
    }

    fn largest_free(&self) -> u64 {
        let _block = &self.size;
        self.widest_gap()
    }

    ghost sound = { ranges_sound };
}

ghost use Rattle.std.specs.Prelude.{ℕ, List, [], ◌∷◌, ◌≡◌};
ghost use Rattle.vk_cached_device.specs.Directly.{last_first, rest_after};

use vk_model::Scheduler;

/// A scheduler that picks the last option once, where it is to, and leaves all other picks to another.
#[derive(Drop)]
pub(crate) struct Directly<'s, S> {
    /// Whether the last option is to be picked next.
    pub(crate) last: bool,
    /// What picks otherwise.
    pub(crate) rest: &'s mut S,
}

impl<'s, S: Scheduler> Scheduler for Directly<'s, S> {
    ghost use Rattle.std.specs.Prelude.{if◌then◌else◌};

    ghost held = { λ d. (if d.last then 1 else 0) ∷ d.rest.ghost_name ∷ S.held d.rest.now };

    ghost answer = { last_first S.answer };

    ghost next = { rest_after S.next };

    fn pick(&mut self, n: u64) -> u64 {
        if self.last {
            self.last = false;
            n - 1
        } else {
            self.rest.pick(n)
        }
    }
}

use vk_model::Scheduler;

/// Picks the first, and keeps how often it was asked, and among how many options the last time.
#[derive(Drop)]
pub struct Counting {
    /// How often it was asked.
    pub asked: u64,
    /// Among how many options the last time.
    pub options: u64,
}

impl Counting {
    /// One that was never asked.
    pub fn new() -> Counting {
        Counting {
            asked: 0,
            options: 0,
        }
    }
}

impl Scheduler for Counting {
    ghost use Rattle.std.specs.Prelude.{[]};

    ghost held = { λ _. [] };

    ghost answer = { λ _ _. 0 };

    ghost next = { λ _ _. [] };

    fn pick(&mut self, options: u64) -> u64 {
        self.asked = self.asked.saturating_add(1);
        self.options = options;
        0
    }
}

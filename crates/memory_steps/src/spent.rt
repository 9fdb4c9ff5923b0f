use std::fmt;
use std::time::Duration;

/// How long turns took.
#[derive(Clone, Copy, Debug)]
pub struct Spent {
    turns: u32,
    all: Duration,
    least: Duration,
}

impl Spent {
    /// By no turn.
    pub fn new() -> Spent {
        Spent {
            turns: 0,
            all: Duration::ZERO,
            least: Duration::ZERO,
        }
    }

    /// One more turn.
    pub fn add(&mut self, time: Duration) {
        if self.turns == 0 || time < self.least {
            self.least = time;
        }
        self.turns = self.turns.saturating_add(1);
        self.all = self.all.saturating_add(time);
    }
}

impl fmt::Display for Spent {
    fn fmt<W: fmt::Write>(&self, f: &mut fmt::Formatter<W>) -> fmt::Result {
        let all = self.all.as_nanos();
        let least = self.least.as_nanos();
        write!(f, "{all} ns least {least} ns")
    }
}

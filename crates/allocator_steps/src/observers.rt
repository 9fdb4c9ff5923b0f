use crate::live_block::LiveBlock;
use crate::request::Request;
use std::fmt;
use std::io::{self, Write};
use std::rt::Clock;
use std::time::{Duration, Instant};

/// Every how many steps the longest free range is asked for.
const STEPS_TO_LARGEST: u64 = 16;

/// What is done with steps.
pub trait Observer {
    /// A request was answered by a start, or had no room.
    fn allocated(&mut self, request: Request, start: Option<u64>) -> io::Result<()>;

    /// The range at a start was given back.
    fn given_back(&mut self, start: u64) -> io::Result<()>;

    /// So many steps have been made on the block.
    fn made<B: LiveBlock>(&mut self, steps: u64, block: &B) -> io::Result<()>;

    /// After so many steps, returns begin, or else requests.
    fn turned(&mut self, steps: u64, to_returns: bool) -> io::Result<()>;
}

/// Writes each step as a line.
#[derive(Drop)]
pub struct Lines<W: Write + Drop> {
    writer: W,
}

impl<W: Write + Drop> Lines<W> {
    /// Lines to a writer.
    pub fn new(writer: W) -> Lines<W> {
        Lines { writer }
    }

    /// Writes the ranges that are taken, and what the writer still holds.
    pub fn finish<B: LiveBlock>(mut self, block: &B) -> anyhow::Result<()> {
        for range in block.taken()? {
            writeln!(self.writer, "taken {} {}", range.start, range.size)?;
        }
        self.writer.flush()?;
        Ok(())
    }
}

impl<W: Write + Drop> Observer for Lines<W> {
    fn allocated(&mut self, request: Request, start: Option<u64>) -> io::Result<()> {
        match start {
            Some(start) => writeln!(self.writer, "{request} {start}"),
            None => writeln!(self.writer, "{request} none"),
        }
    }

    fn given_back(&mut self, start: u64) -> io::Result<()> {
        writeln!(self.writer, "free {start}")
    }

    fn made<B: LiveBlock>(&mut self, steps: u64, block: &B) -> io::Result<()> {
        if steps % STEPS_TO_LARGEST == 0 {
            writeln!(self.writer, "largest {}", block.largest_free())?;
        }
        Ok(())
    }

    fn turned(&mut self, _steps: u64, _to_returns: bool) -> io::Result<()> {
        Ok(())
    }
}

/// Counts steps, and sums answers.
#[derive(Clone, Copy, Debug)]
pub struct Sum {
    answered: u64,
    refused: u64,
    given_back: u64,
    sum: u64,
}

impl Sum {
    /// Of no steps.
    pub fn new() -> Sum {
        Sum {
            answered: 0,
            refused: 0,
            given_back: 0,
            sum: 0,
        }
    }
}

impl Observer for Sum {
    fn allocated(&mut self, _request: Request, start: Option<u64>) -> io::Result<()> {
        match start {
            Some(start) => {
                self.answered = self.answered.wrapping_add(1);
                self.sum = self.sum.wrapping_mul(31).wrapping_add(start);
            }
            None => self.refused = self.refused.wrapping_add(1),
        }
        Ok(())
    }

    fn given_back(&mut self, start: u64) -> io::Result<()> {
        self.given_back = self.given_back.wrapping_add(1);
        self.sum = self.sum.wrapping_mul(31).wrapping_add(start);
        Ok(())
    }

    fn made<B: LiveBlock>(&mut self, _steps: u64, _block: &B) -> io::Result<()> {
        Ok(())
    }

    fn turned(&mut self, _steps: u64, _to_returns: bool) -> io::Result<()> {
        Ok(())
    }
}

impl fmt::Display for Sum {
    fn fmt<W: fmt::Write>(&self, f: &mut fmt::Formatter<W>) -> fmt::Result {
        write!(
            f,
            "answered {} refused {} free {} sum {}",
            self.answered, self.refused, self.given_back, self.sum
        )
    }
}

/// How long steps of one sort took.
#[derive(Clone, Copy, Debug)]
struct Spent {
    steps: u64,
    time: Duration,
}

impl Spent {
    /// By no steps.
    fn new() -> Spent {
        Spent {
            steps: 0,
            time: Duration::ZERO,
        }
    }

    fn add(&mut self, steps: u64, time: Duration) {
        self.steps = self.steps.wrapping_add(steps);
        self.time = self.time.saturating_add(time);
    }
}

impl fmt::Display for Spent {
    fn fmt<W: fmt::Write>(&self, f: &mut fmt::Formatter<W>) -> fmt::Result {
        write!(f, "{} in {} ns", self.steps, self.time.as_nanos())
    }
}

/// Sums answers, and says how long requests and returns took, each from the first return on.
#[derive(Drop)]
pub struct Times<'a, C: Clock> {
    clock: &'a C,
    sum: Sum,
    /// After how many steps, and when, returns or requests began last.
    turn: Option<(u64, Instant)>,
    requests: Spent,
    returns: Spent,
}

impl<'a, C: Clock> Times<'a, C> {
    /// Of no steps.
    pub fn new(clock: &'a C) -> Times<'a, C> {
        Times {
            clock,
            sum: Sum::new(),
            turn: None,
            requests: Spent::new(),
            returns: Spent::new(),
        }
    }
}

impl<'a, C: Clock> Observer for Times<'a, C> {
    fn allocated(&mut self, request: Request, start: Option<u64>) -> io::Result<()> {
        self.sum.allocated(request, start)
    }

    fn given_back(&mut self, start: u64) -> io::Result<()> {
        self.sum.given_back(start)
    }

    fn made<B: LiveBlock>(&mut self, steps: u64, block: &B) -> io::Result<()> {
        self.sum.made(steps, block)
    }

    fn turned(&mut self, steps: u64, to_returns: bool) -> io::Result<()> {
        let now = Instant::now(self.clock)?;
        if let Some((from, then)) = self.turn {
            let ended = if to_returns {
                &mut self.requests
            } else {
                &mut self.returns
            };
            ended.add(steps.saturating_sub(from), now.duration_since(then));
        }
        self.turn = Some((steps, now));
        Ok(())
    }
}

impl<'a, C: Clock> fmt::Display for Times<'a, C> {
    fn fmt<W: fmt::Write>(&self, f: &mut fmt::Formatter<W>) -> fmt::Result {
        write!(
            f,
            "{} requests {} returns {}",
            self.sum, self.requests, self.returns
        )
    }
}

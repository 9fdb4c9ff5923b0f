ghost use Rattle.std.specs.Prelude.{◌<◌, ◌^◌, ◌≤◌};

/// The block that steps are made on.
#[derive(Clone, Copy, Debug, PartialEq, Eq)]
pub enum BlockKind {
    /// By two-level lists.
    Tlsf,
    /// By two-level lists, for resources of both kinds.
    Mixed,
    /// A linear block that may not go round.
    Stack,
    /// A linear block that may go round.
    Ring,
    /// A stack with half of the requests for its upper end.
    Double,
}

/// What is done with the steps.
#[derive(Clone, Copy, Debug, PartialEq, Eq)]
pub enum Mode {
    /// Each is written.
    Print,
    /// Their answers are summed.
    Time,
    /// They are drawn alone.
    Draw,
}

/// What is reported of steps that aren't written.
#[derive(Clone, Copy, Debug, PartialEq, Eq)]
pub enum Report {
    /// A sum of their answers.
    Sum,
    /// It, and how long requests and returns took.
    Times,
}

/// Which of the live ranges is given back.
#[derive(Clone, Copy, Debug, PartialEq, Eq)]
pub enum Order {
    /// The one that was taken first.
    First,
    /// The one that was taken last.
    Last,
    /// Any.
    Any,
    /// One of these three, drawn for each range.
    Drawn,
}

/// What requests are aligned to.
#[derive(Clone, Copy, Debug, PartialEq, Eq)]
pub enum Alignment {
    /// 16 bytes.
    Narrow,
    /// 64 bytes.
    Middle,
    /// 256 bytes.
    Wide,
    /// One of these three, drawn for each request.
    Drawn,
}

/// What the arguments ask for.
#[derive(Clone, Copy, Debug)]
pub struct Plan {
    /// The block.
    pub block: BlockKind,
    /// What is done with the steps.
    pub mode: Mode,
    /// What is reported of them where they aren't written.
    pub report: Report,
    /// The block's bytes.
    pub size: u64,
    /// How many steps are made.
    pub steps: u64,
    /// The generator's seed.
    pub seed: u64,
    /// How many ranges may be live.
    pub live: u64,
    /// How many are given back once so many are live, or a request found no room; 0 for a number
    /// that is drawn each time.
    pub returns: u64,
    /// The most units that a request asks for.
    pub units: u32,
    /// What requests are aligned to.
    pub alignment: Alignment,
    /// Which range is given back.
    pub order: Order,
    /// One of so many requests is for an optimal image; 0 for none.
    pub optimal: u32,
    /// One of so many requests is for the upper end of a linear block, or for the lowest place
    /// below a limit in another one; 0 for none.
    pub special: u32,
    ghost some: { 0 < size },
    ghost bound: { size < 2 ^ 32 },
    ghost units_some: { 0 < units },
}

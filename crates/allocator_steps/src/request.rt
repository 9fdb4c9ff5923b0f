ghost use Rattle.std.specs.Prelude.{◌≡◌, ◌<◌, ◌%◌, ◌⊎◌};

use std::fmt;
use vk_model::Kind;

/// The bytes of a unit, which sizes and starts are multiples of (profile).
pub const UNIT: u64 = 16;

/// What a request is aligned to.
#[derive(Clone, Copy, Debug)]
pub enum Align {
    /// 16 bytes.
    Narrow,
    /// 64 bytes.
    Middle,
    /// 256 bytes.
    Wide,
}

/// Where in a block a request goes.
#[derive(Clone, Copy, Debug)]
pub enum Target {
    /// Where the block's algorithm puts it.
    Anywhere,
    /// To the upper end of a linear block.
    Upper,
    /// To the lowest place that ends at or below so many bytes.
    Below(u64),
}

/// What is asked of a block.
#[derive(Clone, Copy, Debug)]
pub struct Request {
    /// Its bytes, in units of 16, less one.
    pub more_units: u32,
    /// What its start is a multiple of.
    pub align: Align,
    /// How its bytes lie.
    pub kind: Kind,
    /// Where it goes.
    pub target: Target,
}

impl Align {
    /// In bytes.
    pub fn bytes(self) -> u64
        ensures { (result ≡ 16) ⊎ (result ≡ 64) ⊎ (result ≡ 256) }
    {
        match self {
            Align::Narrow => 16,
            Align::Middle => 64,
            Align::Wide => 256,
        }
    }
}

impl Request {
    /// Its bytes.
    pub fn bytes(self) -> u64
        ensures some { 0 < result }
        ensures units { result % 16 ≡ 0 }
    {
        UNIT * (u64::from(self.more_units) + 1)
    }
}

/// As a line of a trace of steps begins.
impl fmt::Display for Request {
    fn fmt<W: fmt::Write>(&self, f: &mut fmt::Formatter<W>) -> fmt::Result {
        let bytes = self.bytes();
        let align = self.align.bytes();
        let kind = match self.kind {
            Kind::Linear => "linear",
            Kind::Optimal => "optimal",
        };
        match self.target {
            Target::Anywhere => write!(f, "allocate {bytes} {align} {kind}"),
            Target::Upper => write!(f, "upper {bytes} {align} {kind}"),
            Target::Below(limit) => write!(f, "below {limit} {bytes} {align} {kind}"),
        }
    }
}

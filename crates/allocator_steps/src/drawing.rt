ghost use Rattle.std.specs.Prelude.{◌<◌};

use crate::live_block::Which;
use crate::plan::{Alignment, BlockKind, Order, Plan};
use crate::request::{Align, Request, Target, UNIT};
use rand_core::SeedableRng;
use rand_core::utils::NextWord;
use rand_pcg::Lcg64Xsh32;
use vk_model::Kind;

/// Draws what the steps of a plan are.
#[derive(Drop)]
pub struct Drawing {
    generator: Lcg64Xsh32,
}

impl Drawing {
    /// The draws that a seed names.
    pub fn new(seed: u64) -> Drawing {
        Drawing {
            generator: Lcg64Xsh32::seed_from_u64(seed),
        }
    }

    /// A request.
    pub fn request(&mut self, plan: &Plan) -> Request {
        let more_units = self.below(plan.units);
        let align = self.align(plan.alignment);
        let kind = if self.is_one_of(plan.optimal) {
            Kind::Optimal
        } else {
            Kind::Linear
        };
        let target = if self.is_one_of(plan.special) {
            self.special(plan)
        } else {
            Target::Anywhere
        };
        Request {
            more_units,
            align,
            kind,
            target,
        }
    }

    /// Which of the live ranges is given back.
    pub fn which(&mut self, order: Order, live: usize) -> Which {
        match order {
            Order::First => Which::First,
            Order::Last => Which::Last,
            Order::Any => self.any(live),
            Order::Drawn => match self.below(3) {
                0 => Which::First,
                1 => Which::Last,
                _ => self.any(live),
            },
        }
    }

    /// How many ranges are given back, of those that are live.
    pub fn returns(&mut self, live: usize) -> u64 {
        self.up_to(live)
    }

    fn any(&mut self, live: usize) -> Which {
        Which::At(self.up_to(live).saturating_sub(1) as usize)
    }

    /// A number from 1 to the count, or 1.
    fn up_to(&mut self, count: usize) -> u64 {
        match u32::try_from(count) {
            Ok(count) if count > 0 => u64::from(self.below(count)) + 1,
            _ => 1,
        }
    }

    fn align(&mut self, alignment: Alignment) -> Align {
        match alignment {
            Alignment::Narrow => Align::Narrow,
            Alignment::Middle => Align::Middle,
            Alignment::Wide => Align::Wide,
            Alignment::Drawn => match self.below(4) {
                0 => Align::Wide,
                1 => Align::Middle,
                _ => Align::Narrow,
            },
        }
    }

    fn special(&mut self, plan: &Plan) -> Target {
        match plan.block {
            BlockKind::Tlsf | BlockKind::Mixed => {
                let units = (plan.size / UNIT).min(u64::from(u32::MAX)) as u32;
                Target::Below(UNIT * u64::from(self.below(units.max(1))))
            }
            BlockKind::Stack | BlockKind::Ring | BlockKind::Double => Target::Upper,
        }
    }

    /// Whether something happens that does so once in `count` draws; never for 0.
    fn is_one_of(&mut self, count: u32) -> bool {
        count > 0 && self.below(count) == 0
    }

    /// A number below the count.
    fn below(&mut self, count: u32) -> u32
        requires { 0 < count }
        ensures { result < count }
    {
        self.generator.next_word() % count
    }
}

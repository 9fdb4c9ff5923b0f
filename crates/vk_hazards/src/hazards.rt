ghost use Rattle.std.specs.Prelude.{◌≡◌, ◌∷◌, ◌<◌, ◌≤◌, ◌+◌, ℕ, IfOk, Contains, length};
ghost use Rattle.vk_model.specs.Trace.Point as spec;
ghost use Rattle.vk_hazards.specs.declared.hazards.Hazard.{Hazard as AnyHazard};
ghost use Rattle.vk_model.specs.Sync.Node.{Node, nodes};
ghost use Rattle.vk_hazards.specs.Hazards.{node_at};
ghost use Rattle.vk_hazards.specs.Latest.{IsLatest, IsBest};
ghost use Rattle.vk_hazards.specs.Inner.Pairs.{IsPair, IsReported};

use crate::pairs::Pair;
use crate::past::Past;
use std::alloc::AllocError;
use vk_order::{Byte, Row};

/// A kind of hazard.
#[derive(Clone, Copy, Debug, PartialEq, Eq)]
pub enum Hazard {
    /// HAZARD_WAR: a write that isn't ordered after an earlier read of the byte.
    War,
    /// HAZARD_RAW: a read without a memory dependency on an earlier write of the byte.
    Raw,
    /// HAZARD_WAW: a write without a memory dependency on an earlier write of the byte.
    Waw,
}

/// A node, with its number.
#[derive(Clone, Copy)]
pub struct Placed<'a> {
    /// How many nodes came before it.
    pub number: usize,
    /// The node.
    pub row: Row<'a>,
}

/// That a node is in hazard with an earlier one.
#[derive(Clone, Copy)]
pub struct HazardFact<'a> {
    /// Of which kind the hazard is.
    pub hazard: Hazard,
    /// The node that accessed the byte earlier: the latest of those that the point is in hazard
    /// with.
    pub earlier: Placed<'a>,
    /// The node of the point.
    pub later: Placed<'a>,
    /// A byte that both access.
    pub byte: Byte,
    /// Whether the earlier node comes before the later one in every allowed order.
    pub is_ordered: bool,
}

impl<'a> Past<'a> {
    /// The earlier access with which the last point is in hazard of a kind: the latest one in
    /// reference order; none where no byte that has a number is in such a hazard. It walks over the
    /// nodes before the point from the latest on, and asks of each that accesses a byte of the
    /// point, until one is in hazard; asking walks over all nodes, once for each range of bytes that
    /// no dependency, flush or invalidation tells apart. The only error is want of memory.
    pub fn hazard_fact(&self, hazard: Hazard) -> Result<Option<HazardFact<'a>>, AllocError>
        ensures { IfOk result (λ found. (past : spec.Past) (p : spec.Point) → self.now ≡ p ∷ past → IsBest self.now hazard (length (nodes past)) (length (nodes self.now)) found) }
    {
        let first = self.before;
        let count = self.rows.len();
        let mut found = None;
        for later in first..count {
            let latest = self.latest_with(hazard, later)?;
            found = later_one(found, latest);
        }
        Ok(found)
    }

    /// What is reported of a pair that is in hazard at a byte.
    fn fact(&self, hazard: Hazard, pair: Pair, byte: Byte) -> HazardFact<'a>
        requires earlier { pair.earlier < length (nodes self.now) }
        requires later { pair.later < length (nodes self.now) }
        ensures { (x y : Node) → IsPair self.now pair x y → IsReported self.now hazard x y byte result }
    {
        HazardFact {
            hazard,
            earlier: self.placed(pair.earlier),
            later: self.placed(pair.later),
            byte,
            is_ordered: self.is_ordered(pair),
        }
    }

    /// A node, by its number.
    fn placed(&self, number: usize) -> Placed<'a>
        requires { number < length (nodes self.now) }
        ensures { (n : Node) → Contains (nodes self.now) n → n.number ≡ number → node_at result ≡ n }
    {
        Placed {
            number,
            row: self.rows[number],
        }
    }

    /// The latest node with which a node is in hazard of a kind.
    fn latest_with(
        &self,
        hazard: Hazard,
        later: usize,
    ) -> Result<Option<HazardFact<'a>>, AllocError>
        requires { later < length (nodes self.now) }
        ensures { IfOk result (λ found. (y : Node) → Contains (nodes self.now) y → y.number ≡ later → IsLatest self.now hazard y found) }
    {
        let row = self.rows[later];
        let areas = self.later_areas(hazard, &row)?;
        for back in 0..later {
            let earlier = later - 1 - back;
            let pair = Pair { earlier, later };
            if let Some(byte) = self.hazard_between(hazard, pair, areas.as_slice())? {
                return Ok(Some(self.fact(hazard, pair, byte)));
            }
        }
        Ok(None)
    }
}

/// The one of two facts whose earlier node is later.
fn later_one<'a>(
    first: Option<HazardFact<'a>>,
    second: Option<HazardFact<'a>>,
) -> Option<HazardFact<'a>>
    ensures { (past : spec.Past) (h : AnyHazard) (low high : ℕ) (y : Node) → IsBest past h low high first.entry → Contains (nodes past) y → y.number ≡ high → low ≤ high → IsLatest past h y second.entry → IsBest past h low (high + 1) result }
{
    let Some(fact) = first else {
        return second;
    };
    let Some(other) = second else {
        return Some(fact);
    };
    if other.earlier.number <= fact.earlier.number {
        Some(fact)
    } else {
        Some(other)
    }
}

ghost use Rattle.std.specs.Prelude.{◌≡◌, nat_le, IfSome, is_some, length};
ghost use Rattle.vk_model.specs.Trace.Point.{Point};
ghost use Rattle.vk_model.specs.Rules.Traces.{breaks_limit};
ghost use Rattle.vk_history.specs.PointViews.{past};
ghost use Rattle.vk_rules.specs.Traces.{IsLimit};

use vk_history::History;

/// How many points a trace may have.
const MOST_POINTS: usize = 131_072;

/// LIMIT: a point past those that a trace may have.
#[derive(Clone, Copy)]
pub struct PointNumber {
    /// Its number in reference order, from 0.
    pub number: usize,
    /// How many points a trace may have.
    pub most: usize,
}

/// LIMIT: the trace has too many points.
pub fn breaks_limit(history: &History<'_>) -> bool
    ensures { (p : Point) → result ≡ breaks_limit (past history.now) p }
{
    limit_of(history).is_some()
}

/// LIMIT: the number of the point that comes next, where there are too many before it.
#[tactic(auto, using(vk_history::proofs::Kept::PastLemmas::limits))]
pub fn limit_of(history: &History<'_>) -> Option<PointNumber>
    ensures broken { is_some result ≡ nat_le 131072 (length (past history.now)) }
    ensures reported { IfSome result (IsLimit (past history.now)) }
{
    let number = history.count();
    if number >= MOST_POINTS {
        Some(PointNumber {
            number,
            most: MOST_POINTS,
        })
    } else {
        None
    }
}

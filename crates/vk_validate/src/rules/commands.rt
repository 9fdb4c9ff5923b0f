//! The early rules of the commands that most traces have, as a table for each form: its rules in the
//! order of their tests, with whether the point breaks them.
ghost use Rattle.std.specs.Prelude.{◌≡◌, ◌∷◌};
ghost use Rattle.std.specs.List.{find};
ghost use Rattle.std.specs.Option.{option_map};
ghost use Rattle.vk_model.specs.Trace.Structure.{IsOrdered};
ghost use Rattle.vk_model.specs.Trace.PointViews.{point_of};
ghost use Rattle.vk_history.specs.PointViews.{past};
ghost use Rattle.vk_validate.specs.Inner.Early.{breaks_early, on_buffers, on_barriers, AreSearched};

use crate::rules::Searched;
use vk_history::History;
use vk_model::{Point, Rule};

/// The first early rule that a fill, an update or a copy between buffers breaks.
pub fn first_on_buffers(
    history: &History<'_>,
    point: &Point<'_>,
    searched: Searched,
) -> Option<Rule>
    requires ordered { IsOrdered (point_of point.now ∷ past history.now) }
    requires searched { AreSearched searched (past history.now) (point_of point.now) }
    ensures { result ≡ find (λ r. breaks_early r (past history.now) (point_of point.now)) on_buffers }
{
    let tests = [
        (Rule::LiveId, vk_rules::breaks_live_id(history, point)),
        (Rule::Size, vk_rules::breaks_size(history, point)),
        (Rule::Usage, vk_rules::breaks_usage(history, point)),
        (Rule::Range, vk_rules::breaks_range(history, point)),
        (Rule::Align, vk_rules::breaks_align(history, point)),
        (Rule::Overlap, searched.is_overlapping),
        (
            Rule::Subresource,
            vk_rules::breaks_subresource(history, point),
        ),
        (Rule::OwnerPair, searched.is_unpaired),
        (Rule::SignalOrder, searched.is_unordered),
        (Rule::PassWrite, vk_rules::breaks_pass_write(history, point)),
    ];
    first_broken(&tests)
}

/// The first early rule that a barrier breaks.
pub fn first_on_barrier(
    history: &History<'_>,
    point: &Point<'_>,
    searched: Searched,
) -> Option<Rule>
    requires ordered { IsOrdered (point_of point.now ∷ past history.now) }
    requires searched { AreSearched searched (past history.now) (point_of point.now) }
    ensures { result ≡ find (λ r. breaks_early r (past history.now) (point_of point.now)) on_barriers }
{
    let tests = [
        (Rule::LiveId, vk_rules::breaks_live_id(history, point)),
        (Rule::Size, vk_rules::breaks_size(history, point)),
        (Rule::Usage, vk_rules::breaks_usage(history, point)),
        (Rule::Range, vk_rules::breaks_range(history, point)),
        (Rule::Overlap, searched.is_overlapping),
        (
            Rule::Subresource,
            vk_rules::breaks_subresource(history, point),
        ),
        (Rule::Stage, vk_rules::breaks_stage(point)),
        (Rule::Layout, vk_rules::breaks_layout(history, point)),
        (Rule::OldLayout, vk_rules::breaks_old_layout(history, point)),
        (
            Rule::OwnerWhole,
            vk_rules::breaks_owner_whole(history, point),
        ),
        (Rule::OwnerPair, searched.is_unpaired),
        (Rule::SignalOrder, searched.is_unordered),
        (Rule::PassWrite, vk_rules::breaks_pass_write(history, point)),
    ];
    first_broken(&tests)
}

/// The first of some rules that is broken.
#[inline(always)]
#[tactic(auto, using(crate::proofs::Judging::Rules::finds))]
fn first_broken(tests: &[(Rule, bool)]) -> Option<Rule>
    ensures { result ≡ option_map (λ t. t.0) (find (λ t. t.1) tests.now) }
{
    for (rule, is_broken) in tests {
        if *is_broken {
            return Some(*rule);
        }
    }
    None
}

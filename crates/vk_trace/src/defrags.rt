ghost use Rattle.std.specs.Prelude.{◌≡◌, Some, OnOk, codes};
ghost use Rattle.vk_trace.specs.Members.{after_word};
ghost use Rattle.vk_trace.specs.Trace.{entry_rows};
ghost use Rattle.vk_trace.specs.Inner.Gives.{Gives};
ghost use Rattle.vk_trace.specs.Inner.Ahead.{ahead, whole};

use crate::members::first;
use crate::tokens::{Reading, Tokens};
use std::alloc::Global;
use vk_model::Entry;

#[tactic(auto, unfolding(crate::specs::Trace::entry_rows))]
pub(crate) fn defrag_of(alloc: Global, tokens: &mut Tokens<'_>) -> Reading<Entry>
    ensures value { Gives (λ x. x) result (after_word entry_rows (codes "defrag") (ahead tokens.old)) }
    ensures rest { OnOk result (whole tokens.old ≡ Some tokens.new) }
{
    let id = first::<u32>(alloc, tokens)?;
    let pool = first::<u32>(alloc, tokens)?;
    let max_bytes = first::<u64>(alloc, tokens)?;
    let max_moves = first::<u32>(alloc, tokens)?;
    tokens.end()?;
    Ok(Entry::Defrag {
        id,
        pool,
        max_bytes,
        max_moves,
    })
}

#[tactic(auto, unfolding(crate::specs::Trace::entry_rows))]
pub(crate) fn pass_of(alloc: Global, tokens: &mut Tokens<'_>) -> Reading<Entry>
    ensures value { Gives (λ x. x) result (after_word entry_rows (codes "pass") (ahead tokens.old)) }
    ensures rest { OnOk result (whole tokens.old ≡ Some tokens.new) }
{
    let defrag = first::<u32>(alloc, tokens)?;
    tokens.end()?;
    Ok(Entry::Pass { defrag })
}

#[tactic(auto, unfolding(crate::specs::Trace::entry_rows))]
pub(crate) fn end_pass_of(alloc: Global, tokens: &mut Tokens<'_>) -> Reading<Entry>
    ensures value { Gives (λ x. x) result (after_word entry_rows (codes "end_pass") (ahead tokens.old)) }
    ensures rest { OnOk result (whole tokens.old ≡ Some tokens.new) }
{
    let defrag = first::<u32>(alloc, tokens)?;
    let ignored = first(alloc, tokens)?;
    let destroyed = first(alloc, tokens)?;
    tokens.end()?;
    Ok(Entry::EndPass {
        defrag,
        ignored,
        destroyed,
    })
}

#[tactic(auto, unfolding(crate::specs::Trace::entry_rows))]
pub(crate) fn end_defrag_of(alloc: Global, tokens: &mut Tokens<'_>) -> Reading<Entry>
    ensures value { Gives (λ x. x) result (after_word entry_rows (codes "end_defrag") (ahead tokens.old)) }
    ensures rest { OnOk result (whole tokens.old ≡ Some tokens.new) }
{
    let defrag = first::<u32>(alloc, tokens)?;
    tokens.end()?;
    Ok(Entry::EndDefrag { defrag })
}

ghost use Rattle.std.specs.Prelude.{◌≡◌, Some, OnOk, codes};
ghost use Rattle.vk_trace.specs.Members.{after_word};
ghost use Rattle.vk_trace.specs.Trace.{algorithm_value, place_rows, entry_rows};
ghost use Rattle.vk_trace.specs.Inner.Gives.{Gives};
ghost use Rattle.vk_trace.specs.Inner.Ahead.{ahead, whole};

use crate::errors::ReadTraceError;
use crate::members::{Member, first};
use crate::tokens::{Reading, Tokens};
use std::alloc::Global;
use vk_model::{Entry, Place, PoolInfo, PoolKind};

impl Member for PoolKind {
    ghost means = { algorithm_value };

    #[tactic(auto, unfolding(crate::specs::Trace::algorithm_value))]
    fn member(_alloc: Global, tokens: &mut Tokens<'_>) -> Reading<PoolKind> {
        match tokens.text()? {
            "tlsf" => Ok(PoolKind::Tlsf),
            "linear" => Ok(PoolKind::Linear),
            _ => Err(ReadTraceError::NotTrace),
        }
    }
}

#[tactic(auto, unfolding(crate::specs::Trace::place_rows))]
pub(crate) fn in_pool_of(alloc: Global, tokens: &mut Tokens<'_>) -> Reading<Place>
    ensures value { Gives (λ x. x) result (after_word place_rows (codes "pool") (ahead tokens.old)) }
    ensures rest { OnOk result (whole tokens.old ≡ Some tokens.new) }
{
    let pool = first::<u32>(alloc, tokens)?;
    tokens.end()?;
    Ok(Place::Pool { pool })
}

#[tactic(auto, unfolding(crate::specs::Trace::place_rows))]
pub(crate) fn upper_of(alloc: Global, tokens: &mut Tokens<'_>) -> Reading<Place>
    ensures value { Gives (λ x. x) result (after_word place_rows (codes "pool_upper") (ahead tokens.old)) }
    ensures rest { OnOk result (whole tokens.old ≡ Some tokens.new) }
{
    let pool = first::<u32>(alloc, tokens)?;
    tokens.end()?;
    Ok(Place::PoolUpper { pool })
}

#[tactic(auto, unfolding(crate::specs::Trace::entry_rows))]
pub(crate) fn pool_of(alloc: Global, tokens: &mut Tokens<'_>) -> Reading<Entry>
    ensures value { Gives (λ x. x) result (after_word entry_rows (codes "pool") (ahead tokens.old)) }
    ensures rest { OnOk result (whole tokens.old ≡ Some tokens.new) }
{
    let id = first::<u32>(alloc, tokens)?;
    let kind = first::<PoolKind>(alloc, tokens)?;
    let memory_type = first::<u32>(alloc, tokens)?;
    let block_size = first::<u64>(alloc, tokens)?;
    let block_limit = first::<u32>(alloc, tokens)?;
    tokens.end()?;
    let info = PoolInfo {
        kind,
        memory_type,
        block_size,
        block_limit,
    };
    Ok(Entry::Pool { id, info })
}

#[tactic(auto, unfolding(crate::specs::Trace::entry_rows))]
pub(crate) fn drop_pool_of(alloc: Global, tokens: &mut Tokens<'_>) -> Reading<Entry>
    ensures value { Gives (λ x. x) result (after_word entry_rows (codes "drop_pool") (ahead tokens.old)) }
    ensures rest { OnOk result (whole tokens.old ≡ Some tokens.new) }
{
    let pool = first::<u32>(alloc, tokens)?;
    tokens.end()?;
    Ok(Entry::DropPool { pool })
}

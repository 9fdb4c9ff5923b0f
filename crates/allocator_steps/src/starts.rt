ghost use Rattle.std.specs.Prelude.{◌≡◌, ◌∷◌, IfSome, IfNone, IsPermutation};

use crate::live_block::Which;
use std::collections::VecDeque;

/// Takes one of the starts out, or none where there is no such one.
pub fn remove(starts: &mut VecDeque<u64>, which: Which) -> Option<u64>
    ensures some { IfSome result (λ start. IsPermutation starts.old.items (start ∷ starts.new.items)) }
    ensures none { IfNone result (starts.new ≡ starts.old) }
{
    match which {
        Which::First => starts.swap_remove_front(0),
        Which::Last => starts.swap_remove_back(starts.len().saturating_sub(1)),
        Which::At(place) => starts.swap_remove_back(place),
    }
}

//! Laws of the passes of a defragmentation, each the contract of a function that does nothing.
ghost use Rattle.vk_model.specs.Memory.PassLaws.{PlacesLieInside, PassesLeadDown, MovesStayDown, RanksAreBounded, FreeingLowersRanks, PassesEnd, NoMovesLeft, PartsFollow};
ghost use Rattle.vk_model.specs.Memory.PassTraces.{PassesOfPoolsEnd};

/// In a pool whose blocks have one size, a resource that is at its place lies in the blocks.
pub fn places_lie_inside()
    ensures { PlacesLieInside }
{}

/// The moves of a pass that begins lead to lower ranks, each resource once, and to places in the
/// pool's blocks.
pub fn passes_lead_down()
    ensures { PassesLeadDown }
{}

/// Moves that lead down still do so when the pool gets a resource, or one that isn't moved ends.
pub fn moves_stay_down()
    ensures { MovesStayDown }
{}

/// The sum of the ranks of resources is at most the resources times the places.
pub fn ranks_are_bounded()
    ensures { RanksAreBounded }
{}

/// No rank, and no sum of ranks, is greater when memory has been given back.
pub fn freeing_lowers_ranks()
    ensures { FreeingLowersRanks }
{}

/// While no resource is made in a pool, at most as many passes end with a move that was made as it
/// has resources times places.
pub fn passes_end()
    ensures { PassesEnd }
{}

/// The same as entries of a trace are applied: while no resource is made in a pool, and none of it
/// ends in a pass, the sum of the ranks of its resources with the moves that are made never rises, and
/// at most as many passes end with a move that was made as it has resources times places, whatever
/// other entries come between.
pub fn passes_of_pools_end()
    ensures { PassesOfPoolsEnd }
{}

/// A pass without limits has no moves exactly where no resource has a move target.
pub fn no_moves_left()
    ensures { NoMovesLeft }
{}

/// What is applied with parts is applied, and where entries are applied there are such parts.
pub fn parts_follow()
    ensures { PartsFollow }
{}

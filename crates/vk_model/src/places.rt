//! Laws of places, each the contract of a function that does nothing.
ghost use Rattle.vk_model.specs.Memory.PassRanks.{PassesLowerRanks};
ghost use Rattle.vk_model.specs.Memory.PlaceLaws.{TexelsApart, TexelsInside, SubresourcesHold, PuttingIsSound, TakingAwayIsSound, LinearTakes, LinearFrees, LinearStays, BlocksGive, PoolStays, RanksFall};

/// No two texels of an image share a byte.
pub fn texels_apart()
    ensures { TexelsApart }
{}

/// All texels of an image lie in the bytes that it asks for.
pub fn texels_inside()
    ensures { TexelsInside }
{}

/// The offset and the size of a subresource hold its texels, and lie in the image.
pub fn subresources_hold()
    ensures { SubresourcesHold }
{}

/// A range that is put where it fits keeps a block sound.
pub fn putting_is_sound()
    ensures { PuttingIsSound }
{}

/// A range that is taken away keeps a block sound.
pub fn taking_away_is_sound()
    ensures { TakingAwayIsSound }
{}

/// What a request takes of a linear block is what is asked, at its place, and nothing else.
pub fn linear_takes()
    ensures { LinearTakes }
{}

/// Freeing takes away just the range at its start.
pub fn linear_frees()
    ensures { LinearFrees }
{}

/// A linear block stays one through every request and every free.
pub fn linear_stays()
    ensures { LinearStays }
{}

/// A block holds a request exactly where it gives it a start, and a new block holds every request
/// that isn't larger than it.
pub fn blocks_give()
    ensures { BlocksGive }
{}

/// A pool stays one through every allocation and every free, and its numbers of blocks rise.
pub fn pool_stays()
    ensures { PoolStays }
{}

/// The place that a resource moves to has a lower rank than its own.
pub fn ranks_fall()
    ensures { RanksFall }
{}

/// A pass that ends lowers the sum of the ranks of its pool's resources by at least as many as it
/// moved, so that moves come to an end.
pub fn passes_lower_ranks()
    ensures { PassesLowerRanks }
{}

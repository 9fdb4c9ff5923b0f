ghost use Rattle.vk_pages.specs.Definitions.{ExampleMeans};
ghost use Rattle.vk_pages.specs.Objects.{ObjectsMean};
ghost use Rattle.vk_pages.specs.Commands.{CommandsMean};
ghost use Rattle.vk_pages.specs.Order.{OrderMean};
ghost use Rattle.vk_pages.specs.Access.{AccessMean};
ghost use Rattle.vk_pages.specs.Misread.{MisreadMean};
ghost use Rattle.vk_pages.specs.HazardsMisread.{HazardsMisreadMean};
ghost use Rattle.vk_pages.specs.RunsMisread.{RunsMisreadMean};

/// The example of the page of definitions.
pub fn example()
    ensures { ExampleMeans }
{}

/// The texts for the rules from NEW_ID to ALIASED.
pub fn objects()
    ensures { ObjectsMean }
{}

/// The texts for the rules from RANGE to OWNER_PAIR.
pub fn commands()
    ensures { CommandsMean }
{}

/// The texts for the rules from EVENT_STATE to WAIT_NEVER.
pub fn order()
    ensures { OrderMean }
{}

/// The texts for the rules from MAP_STATE to READ_UNDEFINED.
pub fn access()
    ensures { AccessMean }
{}

/// The texts for wrong readings of the rules from LIVE_ID to PASS_WRITE.
pub fn misread()
    ensures { MisreadMean }
{}

/// The texts for wrong readings of HAZARD_RAW, HAZARD_WAW and READ_UNDEFINED.
pub fn hazards_misread()
    ensures { HazardsMisreadMean }
{}

/// The texts for wrong readings of what has room, of what runs next and of what caches hold.
pub fn runs_misread()
    ensures { RunsMisreadMean }
{}

//! Laws of links, the contract of a function that does nothing.
ghost use Rattle.vk_hazards.specs.Laws.{MissingIsOne, MissingIsUnseen};

/// No two links are missing between a write and a later access of its byte, and where one is the
/// access doesn't see the write.
pub fn missing_is_one()
    ensures one { MissingIsOne }
    ensures unseen { MissingIsUnseen }
{}

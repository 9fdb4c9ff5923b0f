ghost use Rattle.std.specs.Prelude.{◌≡◌};
ghost use Rattle.vk_model.specs.World.Ownership.{family_of};

/// The family of a queue: 0 and 1 are of family 0, 2 and 3 of family 1.
pub fn family_of(queue: u32) -> u32
    ensures { result ≡ family_of queue }
{
    if queue < 2 { 0 } else { 1 }
}

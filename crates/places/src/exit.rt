ghost use Rattle.std.specs.Prelude.{◌≡◌};
ghost use Rattle.places.specs.ExitStatus.{exit_status_of};

use vk_places::Told;

/// The program's exit status after something was told of a trace.
pub fn exit_status(told: Told) -> u8
    ensures { result ≡ exit_status_of told }
{
    match told {
        Told::Whole => 0,
        Told::Refused => 1,
        Told::Stopped => 3,
    }
}

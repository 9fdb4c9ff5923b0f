ghost use Rattle.std.specs.Prelude.{◌≡◌};
ghost use Rattle.vk_replay.specs.ExitStatus.{exit_status_of};

use vk_run::Status;

/// The program's exit status after a run that gave an answer.
pub fn exit_status(status: Status) -> u8
    ensures { result ≡ exit_status_of status }
{
    match status {
        Status::Replayed => 0,
        Status::Refused => 1,
        Status::Stopped => 3,
    }
}

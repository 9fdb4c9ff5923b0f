ghost use Rattle.std.specs.Prelude.{◌≡◌};
ghost use Rattle.explain.specs.ExitStatus.{exit_status_of};

use vk_explain::Judgment;

/// The program's exit status after an explanation.
pub fn exit_status(judgment: Judgment) -> u8
    ensures { result ≡ exit_status_of judgment }
{
    match judgment {
        Judgment::Accepted => 0,
        Judgment::Refused => 1,
        Judgment::NoTrace => 2,
    }
}

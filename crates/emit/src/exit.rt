ghost use Rattle.std.specs.Prelude.{◌≡◌};
ghost use Rattle.emit.specs.ExitStatus.{exit_status_of};

use vk_emit::Emitted;

/// The program's exit status after a text was written, or a trace refused.
pub fn exit_status(emitted: Emitted) -> u8
    ensures { result ≡ exit_status_of emitted }
{
    match emitted {
        Emitted::Whole => 0,
        Emitted::Refused(_, _) => 1,
        Emitted::Stopped(_) => 3,
    }
}

ghost use Rattle.std.specs.Prelude.{◌≡◌};
ghost use Rattle.vk_order.specs.declared.lines.Line.TheVariants.{Commands as OfCommands, Elements as OfElements};
ghost use Rattle.vk_order.specs.Lines.{same_line};

use crate::lines::Line;

/// Whether a line is that of the commands of a queue.
pub fn is_commands(line: Line, on: u32) -> bool
    ensures { result ≡ same_line line (OfCommands on) }
{
    match line {
        Line::Commands(queue) => queue == on,
        _ => false,
    }
}

/// Whether a line is this one of elements.
pub fn is_elements(line: Line, on: u32, transfer: bool, host: bool) -> bool
    ensures { result ≡ same_line line (OfElements on transfer host) }
{
    match line {
        Line::Elements(queue, t, h) => queue == on && t == transfer && h == host,
        _ => false,
    }
}

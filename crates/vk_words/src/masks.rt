ghost use Rattle.std.specs.Prelude.{◌≡◌, ◌++◌, OnOk, string_bytes};
ghost use Rattle.vk_words.specs.MaskText.{bar_text, others_text, mask_text};

use bitflags::Flags;
use std::alloc::AllocError;

/// Adds the names of the flags whose bits are all set, in the order of their table, with bars between; bits
/// that no flag has as a number in hex after them; and `none` where no bit is set.
///
/// # Errors
///
/// Where no memory is left.
pub fn push_mask<F: Flags<Bits = u32>>(out: &mut String, mask: &F) -> Result<(), AllocError>
    ensures { F.exact → OnOk result (string_bytes out.new ≡ string_bytes out.old ++ mask_text F.table (F.set_of mask.now)) }
{
    let mut begun = false;
    let flags = F::flags();
    for flag in flags {
        if mask.contains(F::from_bits_retain(flag.value().bits())) {
            push_bar(out, begun)?;
            out.push_str(flag.name())?;
            begun = true;
        }
    }
    push_others(out, begun, mask.bits() & !F::all().bits())
}

/// A bar, where something stands before it.
fn push_bar(out: &mut String, begun: bool) -> Result<(), AllocError>
    ensures { OnOk result (string_bytes out.new ≡ string_bytes out.old ++ bar_text begun) }
{
    if begun { out.push_str(" | ") } else { Ok(()) }
}

/// The bits that no flag has.
fn push_others(out: &mut String, begun: bool, others: u32) -> Result<(), AllocError>
    ensures { OnOk result (string_bytes out.new ≡ string_bytes out.old ++ others_text begun others) }
{
    if others == 0 {
        return if begun { Ok(()) } else { out.push_str("none") };
    }
    push_bar(out, begun)?;
    write!(out, "0x{others:x}")
}

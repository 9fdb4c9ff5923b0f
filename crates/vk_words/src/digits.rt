ghost use Rattle.std.specs.Prelude.{◌≡◌, ◌++◌, OnOk, string_bytes};
ghost use Rattle.hex.specs.Hex.{encode_lower};

use std::alloc::AllocError;

/// How many bytes are written as digits at a time.
const AT_ONCE: usize = 4096;

/// Adds bytes in lower hex, two digits for each, some bytes at a time: those of a long list aren't
/// held twice.
pub fn push_digits(out: &mut String, bytes: &[u8]) -> Result<(), AllocError>
    ensures { OnOk result (string_bytes out.new ≡ string_bytes out.old ++ encode_lower bytes.now) }
{
    let alloc = *out.allocator();
    let mut rest = bytes;
    while !rest.is_empty() {
        let (part, later) = rest.split_at(rest.len().min(AT_ONCE));
        let digits = hex::encode(alloc, part)?;
        out.push_str(digits.as_str())?;
        rest = later;
    }
    Ok(())
}

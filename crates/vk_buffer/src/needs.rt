ghost use Rattle.std.specs.Prelude.{◌≡◌, IfOk};
ghost use Rattle.vk_model.specs.declared.resource.BufferInfo.{BufferInfo};
ghost use Rattle.vk_buffer.specs.Requirements.{IsAnswerFor, IsNeed};

use vk_model::{Need, Rule, Usage};

/// A buffer starts at a multiple of this many bytes, and takes a multiple of them (profile).
const BUFFER_UNIT: u64 = 16;

/// The greatest size in bytes that a resource may ask of memory (profile).
const GREATEST_SIZE: u64 = 67_108_864;

/// All usages that there are.
const KNOWN_USAGES: u32 = 3;

/// A buffer allows the memory types 0, 1 and 2 (profile).
const ALL_TYPES: u32 = 7;

/// What a buffer of `size` bytes asks of memory, as `vkGetBufferMemoryRequirements`.
///
/// # Errors
/// The first rule that such a buffer breaks: SIZE for no bytes, USAGE for none or an unknown one,
/// MEMORY_SIZE where it asks for more than 67,108,864 bytes.
pub fn requirements(size: u64, usage: Usage) -> Result<Need, Rule>
    ensures answer { (b : BufferInfo) → b.size ≡ size → b.usage ≡ usage → IsAnswerFor result b }
    ensures need { IfOk result IsNeed }
{
    if size == 0 {
        return Err(Rule::Size);
    }
    if usage.0 == 0 || usage.0 > KNOWN_USAGES {
        return Err(Rule::Usage);
    }
    if size > GREATEST_SIZE {
        return Err(Rule::MemorySize);
    }
    Ok(Need {
        size: (size + (BUFFER_UNIT - 1)) / BUFFER_UNIT * BUFFER_UNIT,
        align: BUFFER_UNIT,
        types: ALL_TYPES,
    })
}

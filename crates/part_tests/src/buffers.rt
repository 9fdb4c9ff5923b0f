use super::expect::expect;
use std::alloc::Global;
use std::process::Abort;
use vk_buffer::{BindError, Bindings, requirements};
use vk_model::{Kind, Need, Rule, Usage};

/// An image of 8 by 8 texels of a byte each: one tile.
const IMAGE: Need = Need {
    size: 64,
    align: 256,
    types: 1,
};

/// What is done with the bindings of a memory object, or asked of them.
enum Step {
    /// The image is bound at an offset.
    Image(u64, Result<(), BindError>),
    /// A buffer of 16 bytes is bound at an offset.
    Buffer(u64, Result<(), BindError>),
    /// What is bound at an offset ends.
    Unbind(u64),
    /// Whether a byte of a buffer at an offset would conflict.
    IsAliased(u64, bool),
}

use Step::{Buffer, Image, IsAliased, Unbind};

/// A buffer may not share the page of an optimal image, and may lie on the next one.
static PAGES_OF_BOTH_KINDS: [Step; 7] = [
    Image(0, Ok(())),
    Buffer(256, Err(BindError::Refused(Rule::Aliased))),
    Buffer(1_024, Ok(())),
    IsAliased(1_039, true),
    IsAliased(1_040, false),
    Unbind(0),
    Buffer(256, Ok(())),
];

/// On cached memory no two buffers share an atom, and none ends past its object.
static ON_CACHED_MEMORY: [Step; 4] = [
    Buffer(16, Err(BindError::Refused(Rule::BindAlign))),
    Buffer(4_096, Err(BindError::Refused(Rule::BindRange))),
    Image(0, Err(BindError::Refused(Rule::MemoryType))),
    Buffer(64, Ok(())),
];

fn bind_buffer(bindings: &mut Bindings, offset: u64) -> Result<(), BindError> {
    let buffer = requirements(16, Usage(3)).map_err(BindError::Refused)?;
    bindings.bind(offset, buffer, Kind::Linear)
}

/// Does these steps on an object of 4,096 bytes, and expects what they say.
fn follow(rt: &impl Abort, alloc: Global, memory_type: u32, steps: &[Step]) {
    let mut bindings = Bindings::new(alloc, 4_096, memory_type);
    for step in steps {
        match step {
            Image(offset, wanted) => {
                let got = bindings.bind(*offset, IMAGE, Kind::Optimal);
                expect(rt, "an image", got, *wanted);
            }
            Buffer(offset, wanted) => {
                expect(rt, "a buffer", bind_buffer(&mut bindings, *offset), *wanted);
            }
            Unbind(offset) => bindings.unbind(*offset),
            IsAliased(offset, wanted) => {
                let got = bindings.is_aliased(*offset, 1, Kind::Linear);
                expect(rt, "a byte", got, *wanted);
            }
        }
    }
}

#[test]
fn bindings(rt: HostRuntime) {
    follow(&rt, rt.alloc(), 0, &PAGES_OF_BOTH_KINDS);
    follow(&rt, rt.alloc(), 2, &ON_CACHED_MEMORY);
}

/// What a buffer asks of its memory.
static REQUIREMENTS: [(u64, Usage, Result<Need, Rule>); 4] = [
    (0, Usage(0), Err(Rule::Size)),
    (16, Usage(0), Err(Rule::Usage)),
    (67_108_865, Usage(3), Err(Rule::MemorySize)),
    (
        18,
        Usage(1),
        Ok(Need {
            size: 32,
            align: 16,
            types: 7,
        }),
    ),
];

#[test]
fn what_a_buffer_asks(rt: HostRuntime) {
    for (size, usage, wanted) in &REQUIREMENTS {
        expect(&rt, "a buffer", requirements(*size, *usage), *wanted);
    }
}

ghost use Rattle.std.specs.Prelude.{⊤, [], ◌∷◌, codes};

use bitflags::{Flag, Flags, bitflag_items};

/// What a resource may be used for, as `VkBufferUsageFlags` and `VkImageUsageFlags`. A trace may name
/// any bits: which of them are known is the matter of a rule.
#[derive(Clone, Copy, PartialEq, Eq, Debug)]
pub struct Usage(pub u32);

bitflag_items! {
    impl Usage: u32 {
        /// A source of transfers (`VK_BUFFER_USAGE_TRANSFER_SRC_BIT`, `VK_IMAGE_USAGE_TRANSFER_SRC_BIT`).
        const TRANSFER_SRC = 1;
        /// A destination of transfers (`VK_BUFFER_USAGE_TRANSFER_DST_BIT`, `VK_IMAGE_USAGE_TRANSFER_DST_BIT`).
        const TRANSFER_DST = 2;
    }
}

impl Flags for Usage {
    type Bits = u32;

    ghost exact = { ⊤ };

    ghost table = { (codes "TRANSFER_SRC", 1) ∷ (codes "TRANSFER_DST", 2) ∷ [] };

    ghost set_of = { λ mask. mask.0 };

    fn flags<'a>() -> &'a [Flag<Usage>] {
        Usage::FLAGS
    }

    fn bits(&self) -> u32 {
        self.0
    }

    fn from_bits_retain(bits: u32) -> Usage {
        Usage(bits)
    }
}

/// The pipeline stages of one scope of a dependency, as `VkPipelineStageFlags2`, by any bits.
#[derive(Clone, Copy, PartialEq, Eq, Debug)]
pub struct Stages(pub u32);

bitflag_items! {
    impl Stages: u32 {
        /// Transfers, clears among them (`VK_PIPELINE_STAGE_2_ALL_TRANSFER_BIT`).
        const TRANSFER = 4096;
        /// Accesses of the host (`VK_PIPELINE_STAGE_2_HOST_BIT`).
        const HOST = 16384;
        /// All commands of a queue (`VK_PIPELINE_STAGE_2_ALL_COMMANDS_BIT`).
        const ALL_COMMANDS = 65536;
    }
}

impl Flags for Stages {
    type Bits = u32;

    ghost exact = { ⊤ };

    ghost table = { (codes "TRANSFER", 4096) ∷ (codes "HOST", 16384) ∷
        (codes "ALL_COMMANDS", 65536) ∷ [] };

    ghost set_of = { λ mask. mask.0 };

    fn flags<'a>() -> &'a [Flag<Stages>] {
        Stages::FLAGS
    }

    fn bits(&self) -> u32 {
        self.0
    }

    fn from_bits_retain(bits: u32) -> Stages {
        Stages(bits)
    }
}

/// The kinds of access of one scope of a dependency, as `VkAccessFlags2`, by any bits.
#[derive(Clone, Copy, PartialEq, Eq, Debug)]
pub struct Accesses(pub u32);

bitflag_items! {
    impl Accesses: u32 {
        /// Reads of transfers (`VK_ACCESS_2_TRANSFER_READ_BIT`).
        const TRANSFER_READ = 2048;
        /// Writes of transfers (`VK_ACCESS_2_TRANSFER_WRITE_BIT`).
        const TRANSFER_WRITE = 4096;
        /// Reads of the host (`VK_ACCESS_2_HOST_READ_BIT`).
        const HOST_READ = 8192;
        /// Writes of the host (`VK_ACCESS_2_HOST_WRITE_BIT`).
        const HOST_WRITE = 16384;
        /// All reads (`VK_ACCESS_2_MEMORY_READ_BIT`).
        const MEMORY_READ = 32768;
        /// All writes (`VK_ACCESS_2_MEMORY_WRITE_BIT`).
        const MEMORY_WRITE = 65536;
    }
}

impl Flags for Accesses {
    type Bits = u32;

    ghost exact = { ⊤ };

    ghost table = { (codes "TRANSFER_READ", 2048) ∷ (codes "TRANSFER_WRITE", 4096) ∷
        (codes "HOST_READ", 8192) ∷ (codes "HOST_WRITE", 16384) ∷
        (codes "MEMORY_READ", 32768) ∷ (codes "MEMORY_WRITE", 65536) ∷ [] };

    ghost set_of = { λ mask. mask.0 };

    fn flags<'a>() -> &'a [Flag<Accesses>] {
        Accesses::FLAGS
    }

    fn bits(&self) -> u32 {
        self.0
    }

    fn from_bits_retain(bits: u32) -> Accesses {
        Accesses(bits)
    }
}

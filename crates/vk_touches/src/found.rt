/// What a point finds wrong with the bytes that it accesses.
#[derive(Clone, Copy)]
pub struct Conflicts {
    /// HAZARD_WAR: a write that isn't ordered after an earlier read of the byte.
    pub war: bool,
    /// HAZARD_RAW: a read without a memory dependency on an earlier write of the byte.
    pub raw: bool,
    /// HAZARD_WAW: a write without a memory dependency on an earlier write of the byte.
    pub waw: bool,
    /// READ_UNDEFINED: a read of an undefined byte.
    pub undefined: bool,
}

impl Conflicts {
    /// Nothing.
    pub const NONE: Conflicts = Conflicts {
        war: false,
        raw: false,
        waw: false,
        undefined: false,
    };
}

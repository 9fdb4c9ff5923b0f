use std::alloc::AllocError;

/// Why there are no calls.
#[derive(Drop)]
pub enum CallsError {
    /// An allocation failed.
    NoMemory,
    /// The bytes aren't such a file.
    Mistake(CallsMistake),
}

/// What keeps bytes from being a file with calls.
#[derive(Drop)]
pub struct CallsMistake {
    /// Where.
    pub place: CallsPlace,
    /// What is expected there.
    pub expected: &'static str,
    /// What is there.
    pub found: &'static str,
}

/// Where something in a file begins.
#[derive(Drop)]
pub enum CallsPlace {
    /// At a byte, counted from 0.
    Byte(usize),
    /// At a line and a column, each counted from 1.
    Line {
        /// The line.
        line: usize,
        /// The column.
        column: usize,
    },
    /// At a member, as a JSON pointer.
    Member(String),
}

impl From<AllocError> for CallsError {
    fn from(_refused: AllocError) -> CallsError {
        CallsError::NoMemory
    }
}

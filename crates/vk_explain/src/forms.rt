/// How an explanation is written.
#[derive(Clone, Copy, Debug, PartialEq, Eq)]
pub enum Form {
    /// As lines of text.
    Text,
    /// As one object of JSON, on a line.
    Json,
}

/// What is asked of a trace.
#[derive(Clone, Copy, Debug, PartialEq, Eq)]
pub enum Wanted {
    /// That it is explained.
    Explained(Form),
    /// The trace as it is after repairs, alone.
    Repaired,
    /// That it is explained as an object, which has each repair and the trace as it is after them.
    ExplainedAndRepaired,
}

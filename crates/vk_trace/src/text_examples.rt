//! Worked texts, each the contract of a function that does nothing.
ghost use Rattle.vk_trace.specs.TextExamples.{Traces, NoTraces, Texts};

/// Texts that are traces, with the entries that they mean.
pub fn traces()
    ensures { Traces }
{}

/// Texts that are no trace.
pub fn no_traces()
    ensures { NoTraces }
{}

/// The texts of answers.
pub fn answers()
    ensures { Texts }
{}

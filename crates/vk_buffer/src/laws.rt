//! That a refusal is the verdict on the point of a trace, the contract of a function that does nothing.
ghost use Rattle.vk_buffer.specs.Judging.{JudgesBindings};

/// Where what is bound is what the live resources of a past take of a memory object, a binding is
/// refused by the first rule, of the four that speak of bindings, that its point breaks.
pub fn bindings_are_judged()
    ensures { JudgesBindings }
{}

use bitflags::Flags;
use std::alloc::{AllocError, Global};
use vk_model::{SemaphoreSubmit, SemaphoreValue};

/// What is written as a value of JSON.
pub trait Written {
    /// Adds it to a text.
    fn push_json(&self, out: &mut String) -> Result<(), AllocError>;
}

/// Adds an array of items.
pub fn push_list<T: Written>(out: &mut String, items: &[T]) -> Result<(), AllocError> {
    out.push_str("[")?;
    for (index, item) in items.iter().enumerate() {
        if index > 0 {
            out.push_str(",")?;
        }
        item.push_json(out)?;
    }
    out.push_str("]")
}

impl Written for u32 {
    fn push_json(&self, out: &mut String) -> Result<(), AllocError> {
        let number = *self;
        write!(out, "{number}")
    }
}

impl Written for SemaphoreValue {
    fn push_json(&self, out: &mut String) -> Result<(), AllocError> {
        let SemaphoreValue { semaphore, value } = *self;
        write!(out, "[{semaphore},{value}]")
    }
}

impl Written for SemaphoreSubmit {
    fn push_json(&self, out: &mut String) -> Result<(), AllocError> {
        let semaphore = self.semaphore;
        let value = self.value;
        let stages = self.stages.bits();
        write!(out, "[{semaphore},{value},{stages}]")
    }
}

/// A wait or a signal of a batch.
pub fn submit_json(alloc: Global, submit: &SemaphoreSubmit) -> Result<String, AllocError> {
    let mut out = String::new(alloc);
    submit.push_json(&mut out)?;
    Ok(out)
}

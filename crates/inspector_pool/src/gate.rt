//! What is called within each job of a pool.
use std::sync::Wait;

/// What is called within each job. It answers nothing, so no answer of the pool rests on it.
pub trait JobGate: Sync {
    /// Called within the job of this number, by the worker that has it. Jobs count from 1.
    fn inside<R: Wait>(&self, rt: &R, job: u32);
}

/// A gate that does nothing.
#[derive(Drop)]
pub struct OpenJobGate;

impl JobGate for OpenJobGate {
    fn inside<R: Wait>(&self, _rt: &R, _job: u32) {}
}

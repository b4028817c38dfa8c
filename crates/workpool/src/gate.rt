// A gate that each worker passes before each job, so that a test can hold it there.

/// Called before each job is run, with the number of the worker and the job. It may wait.
pub trait Gate: Sync {
    fn at(&self, worker: u32, job: u64);
}

/// A gate that holds nobody.
#[derive(Clone, Copy)]
pub struct OpenGate;

impl Gate for OpenGate {
    fn at(&self, _worker: u32, _job: u64) {}
}

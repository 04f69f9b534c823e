use std::sync::Wait;

/// What a worker passes before each job. What it waits for each gate says for itself.
pub trait Gate {
    /// Called by a worker before it searches the job of this number. It may wait.
    fn pass<R: Wait>(&self, rt: &R, doc: usize);
}

/// A gate that does nothing and waits for nobody.
#[derive(Clone, Copy, Debug)]
pub struct NoGate;

// Its body is empty, so it waits for nobody.
impl Gate for NoGate {
    fn pass<R: Wait>(&self, _rt: &R, _doc: usize) {}
}

/// What a worker passes before it takes a label. It has no meaning: tests order threads by it.
pub trait Gate {
    fn turn(&self, worker: u32, label: u32);
}

/// A gate that does nothing.
#[derive(Clone, Copy, Debug)]
pub struct NoGate;

impl Gate for NoGate {
    fn turn(&self, _worker: u32, _label: u32) {}
}

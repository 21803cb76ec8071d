/// A watcher of the first sweep of each solve of a crew. The seats of a crew share it.
pub trait Gate: Sync {
    /// Called after a seat's relaxation of a point. It returns, and changes no answer.
    fn pass(&self, seat: usize, point: usize);
}

/// The gate that does nothing.
#[derive(Clone, Copy, Debug)]
pub struct OpenGate;

impl Gate for OpenGate {
    fn pass(&self, _seat: usize, _point: usize) {}
}

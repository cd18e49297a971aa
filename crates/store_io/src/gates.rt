//! Gates, at which a test can hold a worker of the live mode. The profile is this project's own.

/// What a worker passes at each of its calls. It changes nothing that a contract sees.
pub trait Gate {
    /// The worker is about to ask for a turn, for its call of this number.
    fn before(&self, worker: u32, call: u32);

    /// The worker has its turn, for its call of this number.
    fn inside(&self, worker: u32, call: u32);
}

/// A gate that holds nobody.
#[derive(Clone, Copy, Debug, PartialEq, Eq)]
pub struct OpenGate;

impl Gate for OpenGate {
    fn before(&self, _worker: u32, _call: u32) {}

    fn inside(&self, _worker: u32, _call: u32) {}
}

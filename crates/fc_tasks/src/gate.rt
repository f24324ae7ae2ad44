//! A gate that may delay actors.

/// When an actor comes to the gate.
#[derive(Clone, Copy, PartialEq, Eq)]
pub enum Moment {
    /// The request is done, and its turn still held.
    Inside,
    /// The turn was given back.
    Answered,
}

/// A gate only delays: `reach` is called by each actor at both moments of each request.
pub trait Gate: Sync {
    /// The actor comes to the gate with this request of its script, counted from 0.
    fn reach(&self, actor: u32, request: u32, moment: Moment);
}

/// The gate that delays nobody.
#[derive(Clone, Copy)]
pub struct FreeGate;

impl Gate for FreeGate {
    fn reach(&self, _actor: u32, _request: u32, _moment: Moment) {}
}

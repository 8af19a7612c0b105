use std::sync::Wait;

/// A point that a worker passes, with the worker's number.
#[derive(Clone, Copy, Debug, PartialEq, Eq)]
pub enum Point {
    /// It is about to judge.
    Judge(u32),
    /// Its sink has taken the bytes of a write whole.
    Written(u32),
}

/// What workers pass at their points. A test can hold one there until another has come further.
pub trait Gate {
    /// Returns when the worker may go on.
    fn pass<W: Wait>(&self, rt: &W, point: Point);
}

/// The gate that holds nobody.
#[derive(Clone, Copy, Debug, Drop)]
pub struct OpenGate;

impl Gate for OpenGate {
    fn pass<W: Wait>(&self, _rt: &W, _point: Point) {}
}

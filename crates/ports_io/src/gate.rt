// Where the workers of a session may be held up.
use std::sync::Wait;

/// A place in the work on one command.
#[derive(Clone, Copy, Debug, PartialEq, Eq)]
pub enum Point {
    /// The command was drawn from its lane.
    Drawn,
    /// The command was checked on a copy of the chain and the pool.
    Checked,
    /// The command's reply stands in the history.
    Finished,
}

/// Is passed at each point of each command. It answers nothing and may wait.
pub trait Gate {
    /// Passes the point of the command with this number in this lane, both counted from 0.
    fn at<R: Wait>(&self, rt: &R, point: Point, lane: u32, number: u32);
}

/// A gate that waits for nothing.
#[derive(Clone, Copy, Debug)]
pub struct OpenGate;

impl Gate for OpenGate {
    fn at<R: Wait>(&self, _rt: &R, _point: Point, _lane: u32, _number: u32) {}
}

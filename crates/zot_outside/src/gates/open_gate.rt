//! A gate that is open.
use crate::gates::{Gate, Point};

/// A gate that lets everything pass at once.
#[derive(Clone, Copy)]
pub struct OpenGate;

impl Gate for OpenGate {
    fn pass(&self, _point: &Point) {}
}

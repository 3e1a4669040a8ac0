//! What a test may do in the midst of a turn.
use std::sync::Wait;

/// Who is told of turns and answers. It answers nothing, and sees nothing of a place.
pub trait Gate: Sync {
    /// A turn at this place has begun, and no other can begin there before it ends.
    fn inside<R: Wait>(&self, rt: &R, place: u8);
    /// A request for a queue of this place was answered.
    fn answered(&self, place: u8);
}

/// A gate that does nothing.
#[derive(Drop)]
pub struct OpenGate;

impl Gate for OpenGate {
    fn inside<R: Wait>(&self, _rt: &R, _place: u8) {}

    fn answered(&self, _place: u8) {}
}

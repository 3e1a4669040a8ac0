//! What all who work in a run share.

use inspector_script::Script;
use plane::Plane;
use std::alloc::Global;

/// What all who work in a run share: the plane, the script by which its ports answer and its
/// devices go down, and the gate that is told of each turn.
#[derive(Drop)]
pub struct Stage<'a, R, G> {
    pub rt: &'a R,
    pub alloc: Global,
    pub plane: &'a Plane,
    pub gate: &'a G,
    pub script: &'a Script,
}

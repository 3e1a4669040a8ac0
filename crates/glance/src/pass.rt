//! A pass to read a board.
use crate::steps::Sitting;
use std::marker::Model;

/// The right to read the places of one board. Contracts see all that it read, in this order. It
/// has no bytes.
#[derive(Drop)]
pub struct GlancePass {
    pub(crate) seat: Sitting,
}

impl Model for GlancePass {
    ghost use Rattle.glance.specs.Views.{PassView};

    ghost Value = { PassView };

    ghost use Rattle.glance.specs.Invariants.{pass_of};

    ghost view = { λ p. pass_of p.seat };
}

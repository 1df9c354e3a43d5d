// How far on its way something is while the shutter is open.
ghost use Rattle.primitives.specs.Shifts.{ShiftValue, IsShift};

use std::marker::Model;

/// How far a primitive is on its way from its first time to its last one, in 65536 equal steps: when the shutter opens, and when it
/// closes, if that is later. Contracts see it as a record.
#[derive(Drop, Clone, Copy, Debug, PartialEq, Eq)]
pub struct Shift {
    pub opening: u32,
    pub closing: Option<u32>,
}

impl Model for Shift {
    ghost Value = { ShiftValue };

    ghost view = { λ s. record { opening = s.opening; closing = s.closing } };

    ghost inverse = { λ s. record { opening = s.opening; closing = s.closing } };

    ghost invariant = { λ s. IsShift (record { opening = s.opening; closing = s.closing }) };
}

// A sample with its colour.
use fixed_math::Vec3;
use hider::Spot;

/// A sample of the frame: its place, and the composite of all that covers it.
#[derive(Clone, Copy)]
pub(crate) struct ShownSample {
    pub(crate) place: Spot,
    pub(crate) colour: Vec3,
}

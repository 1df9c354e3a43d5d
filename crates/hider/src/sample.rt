// A sample.
use crate::spot::Spot;

/// A sample: its place on the raster, and its time in 1/65536 of the shutter's interval.
#[derive(Debug, Clone, Copy, PartialEq, Eq)]
pub struct Sample {
    pub place: Spot,
    pub time: u16,
}

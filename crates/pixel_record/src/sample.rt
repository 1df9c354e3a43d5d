// A sample that counts for a pixel.
use crate::fragment::FragmentAccount;
use fixed_math::{List, Num, Vec3};
use hider::Sample;

/// A sample that counts for a pixel: its place on the raster in 1/256 pixel, its time in 1/65536 of the shutter's interval, its weight
/// for the pixel, where 65536 is a whole, its fragments from the nearest to the first opaque one, and its colour, which they make.
#[derive(Drop)]
pub struct SampleAccount {
    pub sample: Sample,
    pub weight: Num,
    pub fragments: List<FragmentAccount>,
    pub colour: Vec3,
}

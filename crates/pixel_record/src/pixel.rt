// All that made a pixel.
use crate::frame::FrameAccount;
use crate::sample::SampleAccount;
use fixed_math::{List, Vec3};

/// The sums over the samples of a pixel: their weights, which divide the others, and each channel of their colours times the weight. All
/// are raw: weights in 1/65536, products in 1/65536^2.
#[derive(Debug, Clone, Copy, PartialEq, Eq)]
pub struct WeightedSums {
    pub weight: i128,
    pub x: i128,
    pub y: i128,
    pub z: i128,
}

/// From the samples' mean to the numbers of the picture, channel by channel: the mean; times the gain; to the power of 1 over gamma; times
/// the greatest number of a channel and rounded to the nearest whole one; put into the least to the greatest number that is written.
#[derive(Debug, Clone, Copy, PartialEq, Eq)]
pub struct Tones {
    pub mean: Vec3,
    pub bright: Vec3,
    pub exposed: Vec3,
    pub rounded: [i64; 3],
    pub levels: [u32; 3],
}

/// The account of the pixel `x`, `y` of a frame: its samples whose weight for it isn't 0, in the order of their pixels by rows, their
/// sums, the numbers that these make, and the bytes that the picture has for the pixel.
#[derive(Drop)]
pub struct PixelAccount {
    pub frame: FrameAccount,
    pub x: u32,
    pub y: u32,
    pub samples: List<SampleAccount>,
    pub sums: WeightedSums,
    pub tones: Tones,
    pub bytes: List<u8>,
}

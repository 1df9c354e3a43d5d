//! From samples to the bytes of a picture: the filter's weights, the weighted mean, exposure, quantizing, and the format PPM.
#![tactic(auto)]

mod adding;
mod bells;
mod black;
mod film;
mod levels;
mod pixel_filter;
mod ppm;
mod rect;
mod sampling;
mod shown;
mod span;
mod sums;
mod tables;
mod total;
mod weights;

pub use film::Film;
pub use levels::{expose, pixel_levels, quantize};
pub use pixel_filter::PixelFilter;
pub use ppm::{append_band, band_bytes, header};
pub use sums::Sums;
pub use weights::{reach, weight};

//! Textures: images in the format PPM (P6), means of their samples over squares of all levels, and look-ups through a cache of tiles.
//!
//! Level `l` of a texture has a texel for each square of `2^l` by `2^l` samples, the last ones cut to the image. A look-up mixes four
//! texels of a level. It is made through a cache that keeps at most 256 tiles of 32 by 32 texels, and is what it would be without one.
#![tactic(auto)]

mod cache;
mod channels;
mod fault;
mod header;
mod laws;
mod look;
mod numbers;
mod places;
mod reading;
mod samples;
mod steps;
mod sums;
mod texel;
mod texture;

pub use cache::Cache;
pub use fault::TextureFault;
pub use laws::one_image_law;
pub use reading::read;
pub use steps::level;
pub use texture::Texture;

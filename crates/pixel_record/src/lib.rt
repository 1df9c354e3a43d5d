//! The account of a pixel as plain data: all that made it, each number as the renderer's definitions give it.
#![tactic(auto)]

mod fragment;
mod frame;
mod pixel;
mod primitive;
mod sample;

pub use fragment::{FragmentAccount, GridCell, GridPoint};
pub use frame::FrameAccount;
pub use pixel::{PixelAccount, Tones, WeightedSums};
pub use primitive::{PrimitiveAccount, ShaderRequest};
pub use sample::SampleAccount;

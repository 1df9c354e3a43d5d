// The frame that a pixel belongs to.
use fixed_math::Text;
use scene::Options;

/// The frame that a pixel belongs to: its place among the scene's frames, from 0, the file of its picture, the raster's size in pixels,
/// and its options.
#[derive(Drop)]
pub struct FrameAccount {
    pub number: usize,
    pub file: Text,
    pub width: u32,
    pub height: u32,
    pub options: Options,
}

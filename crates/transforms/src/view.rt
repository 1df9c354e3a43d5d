// What a camera sees.
use fixed_math::Num;

/// What a camera sees: its projection, window, raster and depths.
#[derive(Debug, Clone, Copy, PartialEq, Eq)]
pub struct View {
    /// The field of view of a perspective projection, in degrees; none where the projection is orthographic.
    pub fov: Option<Num>,
    /// The screen window: left, right, bottom and top.
    pub window: [Num; 4],
    /// The raster's size in pixels.
    pub width: u32,
    pub height: u32,
    /// The least and the greatest depth that is seen, in camera space.
    pub near: Num,
    pub far: Num,
}

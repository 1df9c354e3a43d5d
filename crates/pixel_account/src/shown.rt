// A frame at its place in a scene.
ghost use Rattle.std.specs.Prelude.{◌≡◌, Some, slice_get};

use scene::{Frame, Scene};

/// A frame of a scene, at its place, and the pixels whose samples are looked at: their left, top, right and bottom.
#[derive(Drop)]
pub(crate) struct Shown<'a> {
    pub(crate) scene: &'a Scene,
    pub(crate) index: usize,
    pub(crate) frame: &'a Frame,
    pub(crate) rect: [u32; 4],
    pub(crate) ghost there: { slice_get scene.now.frames index ≡ Some frame.now },
}

// A frame at its place in a scene, as it is drawn.
ghost use Rattle.std.specs.Prelude.{◌≡◌, Some, slice_get};

use crate::limits::Limits;
use crate::share::Share;
use scene::{Frame, Scene};

/// A frame of a scene, at that place, of which a share is drawn within limits. The whole frame has so many tiles.
#[derive(Drop)]
pub(crate) struct Shown<'a> {
    pub(crate) scene: &'a Scene,
    pub(crate) index: usize,
    pub(crate) frame: &'a Frame,
    pub(crate) limits: Limits,
    pub(crate) tiles: usize,
    pub(crate) share: Share,
    pub(crate) ghost there: { slice_get scene.now.frames index ≡ Some frame.now },
}

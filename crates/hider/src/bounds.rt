// Boxes on the raster.
ghost use Rattle.std.specs.Prelude.{◌≡◌};

use crate::spot::Spot;

/// A box on the raster, in 1/256 pixel, both ends with it.
#[derive(Debug, Clone, Copy, PartialEq, Eq)]
pub struct Bounds {
    pub left: i64,
    pub right: i64,
    pub top: i64,
    pub bottom: i64,
}

impl Bounds {
    ghost use Rattle.hider.specs.Bounding.{holds};

    /// Whether the box holds a place.
    pub(crate) fn holds(&self, s: Spot) -> bool
        ensures { result ≡ holds self.now s }
    {
        if s.x() < self.left {
            return false;
        }
        if self.right < s.x() {
            return false;
        }
        if s.y() < self.top {
            return false;
        }
        s.y() <= self.bottom
    }
}

// Texels.
ghost use Rattle.std.specs.Prelude.{◌≡◌, ◌≤◌};

use fixed_math::{Num, Vec3};

/// A texel, whose channels are parts of a whole of 65536.
#[derive(Clone, Copy)]
pub(crate) struct Texel {
    pub(crate) red: u32,
    pub(crate) green: u32,
    pub(crate) blue: u32,
    pub ghost red_most: { red ≤ 65536 },
    pub ghost green_most: { green ≤ 65536 },
    pub ghost blue_most: { blue ≤ 65536 },
}

impl Texel {
    ghost use Rattle.texture.specs.Looks.{colour_of};

    /// Its colour.
    pub(crate) fn colour(self) -> Vec3
        ensures { result ≡ colour_of self }
    {
        Vec3 {
            x: Num::from_raw(self.red as i64),
            y: Num::from_raw(self.green as i64),
            z: Num::from_raw(self.blue as i64),
        }
    }
}

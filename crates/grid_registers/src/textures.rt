// Textures as code looks them up.
ghost use Rattle.std.specs.Prelude.{◌≡◌, ◌<◌, ◌≤◌, ◌≤ℤ◌, List, [], pos, length, get_or};
ghost use Rattle.texture.specs.Images.{Image};
ghost use Rattle.texture.specs.Levels.{level_of};
ghost use Rattle.texture.specs.Looks.{look_of};
ghost use Rattle.texture.specs.Slots.{no_image};

use fixed_math::{Num, Vec3};
use texture::{Cache, level};

/// Textures that are looked up, by their numbers. Of one that is not there they say nothing.
pub trait Textures {
    ghost images: { Self → List Image };

    /// How many there are.
    fn count(&self) -> usize
        ensures { result ≡ length (images self.now) };

    /// The number of columns of samples.
    fn width(&self, which: u32) -> u32
        ensures value { which < length (images self.now) → result ≡ (get_or (images self.now) which no_image).width }
        ensures most { result ≤ 2048 };

    /// The number of rows of samples.
    fn height(&self, which: u32) -> u32
        ensures value { which < length (images self.now) → result ≡ (get_or (images self.now) which no_image).height }
        ensures most { result ≤ 2048 };

    /// The colour at `s` and `t` of the level for a step.
    fn colour(&mut self, which: u32, step: i64, s: Num, t: Num) -> Vec3
        requires { pos 0 ≤ℤ step }
        ensures value { which < length (images self.old) → result ≡ look_of (get_or (images self.old) which no_image) (level_of (get_or (images self.old) which no_image) step) s t }
        ensures same { images self.new ≡ images self.old };
}

impl Textures for Cache<'_> {
    ghost images = { λ c. c.textures };

    fn count(&self) -> usize {
        self.textures().len()
    }

    fn width(&self, which: u32) -> u32 {
        match self.textures().get(which as usize) {
            Some(texture) => texture.width(),
            None => 0,
        }
    }

    fn height(&self, which: u32) -> u32 {
        match self.textures().get(which as usize) {
            Some(texture) => texture.height(),
            None => 0,
        }
    }

    fn colour(&mut self, which: u32, step: i64, s: Num, t: Num) -> Vec3 {
        match self.textures().get(which as usize) {
            Some(texture) => {
                let l = level(texture, step);
                self.look(which, l, s, t)
            }
            None => Vec3::default(),
        }
    }
}

/// No textures.
#[derive(Drop)]
pub struct NoTextures;

impl Textures for NoTextures {
    ghost images = { λ n. [] };

    fn count(&self) -> usize {
        0
    }

    fn width(&self, _which: u32) -> u32 {
        0
    }

    fn height(&self, _which: u32) -> u32 {
        0
    }

    fn colour(&mut self, _which: u32, _step: i64, _s: Num, _t: Num) -> Vec3 {
        Vec3::default()
    }
}

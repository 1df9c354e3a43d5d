// Which samples a tile has.
ghost use Rattle.std.specs.Prelude.{◌≡◌, ◌≤◌, ◌<◌, ◌+◌, ◌-◌, ◌*◌, ◌/◌, ◌%◌, [], ◌∷◌};
ghost use Rattle.fixed_math.specs.Spots.{pixel_count, pixel_x, pixel_y};
ghost use Rattle.hider.specs.Tiles.{IsSampleGrid, rect_of, sample_count, sample_of};

use crate::sample::Sample;
use crate::sampling::sample_at;

/// Which samples a tile has: those of the pixels from `left` to below `right` and from `top` to below `bottom`, `xs` by `ys`
/// in each.
#[derive(Clone, Copy)]
pub struct SampleGrid {
    pub left: u32,
    pub top: u32,
    pub right: u32,
    pub bottom: u32,
    pub xs: u32,
    pub ys: u32,
}

impl SampleGrid {
    /// The number of samples of a pixel.
    pub(crate) fn per_pixel(&self) -> usize
        requires { IsSampleGrid self.now }
        ensures value { result ≡ self.now.xs * self.now.ys }
        ensures some { 1 ≤ result }
        ensures most { result ≤ 256 }
    {
        (self.xs * self.ys) as usize
    }

    /// The number of pixels of a row.
    pub(crate) fn width(&self) -> usize
        requires { IsSampleGrid self.now }
        ensures value { result ≡ self.now.right - self.now.left }
        ensures some { 1 ≤ result }
        ensures most { result ≤ 4096 }
    {
        (self.right - self.left) as usize
    }

    /// The number of rows of pixels.
    pub(crate) fn height(&self) -> usize
        requires { IsSampleGrid self.now }
        ensures value { result ≡ self.now.bottom - self.now.top }
        ensures some { 1 ≤ result }
        ensures most { result ≤ 4096 }
    {
        (self.bottom - self.top) as usize
    }

    /// The number of samples.
    pub(crate) fn count(&self) -> usize
        requires { IsSampleGrid self.now }
        ensures { result ≡ sample_count self.now }
    {
        self.width() * self.height() * self.per_pixel()
    }

    /// The column and the row of a pixel, by its number.
    pub(crate) fn pixel(&self, pixel: usize) -> [u32; 2]
        requires valid { IsSampleGrid self.now }
        requires inside { pixel < pixel_count (rect_of self.now) }
        ensures value { result ≡ pixel_x (rect_of self.now) pixel ∷ pixel_y (rect_of self.now) pixel ∷ [] }
        ensures column { pixel_x (rect_of self.now) pixel < 4096 }
        ensures row { pixel_y (rect_of self.now) pixel < 4096 }
    {
        let width = self.width();
        let x = self.left + (pixel % width) as u32;
        let y = self.top + (pixel / width) as u32;
        [x, y]
    }

    /// Sample `n`.
    pub(crate) fn sample(&self, n: usize) -> Sample
        requires valid { IsSampleGrid self.now }
        requires inside { n < sample_count self.now }
        ensures { result ≡ sample_of self.now n }
    {
        let per_pixel = self.per_pixel();
        let width = self.width();
        let pixel = n / per_pixel;
        let x = self.left + (pixel % width) as u32;
        let y = self.top + (pixel / width) as u32;
        sample_at(x, y, (n % per_pixel) as u32, self.xs, self.ys)
    }
}

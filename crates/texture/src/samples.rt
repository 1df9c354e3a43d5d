// The samples of a texture.
ghost use Rattle.std.specs.Prelude.{◌≡◌, ◌≤◌, ◌<◌, ◌*◌, ◌+◌, length, max, IfOk, take};
ghost use Rattle.texture.specs.Images.{Image, IsImage, IsStored, image_in, number_in, bytes_each as bytes_each_of, byte_count, image_bytes};
ghost use Rattle.texture.specs.Pyramid.{sample, sum_to, square_sum};
ghost use Rattle.texture.specs.Scans.{IsWhole};

use crate::header::Header;
use fixed_math::NoMemory;
use std::alloc::Global;
use std::marker::Model;

/// An image as the bytes of its samples. Contracts see it as the image.
#[derive(Drop)]
pub(crate) struct Samples {
    width: u32,
    height: u32,
    most: u32,
    bytes: Vec<u8>,
}

impl Model for Samples {
    ghost Value = { Image };

    ghost view = { λ s. image_in s.width s.height s.most s.bytes.items };

    ghost invariant = { λ s. IsStored s.width s.height s.most s.bytes.items };
}

/// How many bytes a sample has where the greatest is `most`.
fn bytes_each(most: u32) -> usize
    ensures value { result ≡ bytes_each_of most }
    ensures most { result ≤ 2 }
{
    if most <= 255 { 1 } else { 2 }
}

/// Number `k` in these bytes.
fn number_at(most: u32, bytes: &[u8], k: usize) -> u32
    requires { bytes_each_of most * (k + 1) ≤ length bytes.now }
    ensures { result ≡ number_in most bytes.now k }
{
    if most <= 255 {
        bytes[k] as u32
    } else {
        bytes[2 * k] as u32 * 256 + bytes[2 * k + 1] as u32
    }
}

impl Samples {
    /// The image whose samples stand at the front of these bytes, or want of memory.
    pub(crate) fn new(alloc: Global, header: &Header, stored: &[u8]) -> Result<Samples, NoMemory>
        requires whole { IsWhole header.now.width header.now.height header.now.most (length stored.now) }
        requires sides { max header.now.width header.now.height ≤ 2048 }
        ensures { IfOk result (λ s. s ≡ image_in header.now.width header.now.height header.now.most (take (byte_count header.now.width header.now.height header.now.most) stored.now)) }
    {
        let width = header.width as u32;
        let height = header.height as u32;
        let most = header.most as u32;
        let count = 3 * (width as usize * height as usize) * bytes_each(most);
        let (front, _rest) = stored.split_at(count);
        let mut bytes = Vec::new(alloc);
        bytes.extend_from_slice(front)?;
        Ok(Samples {
            width,
            height,
            most,
            bytes,
        })
    }

    /// Does nothing: a call tells a proof what holds of every image.
    pub(crate) fn recall(&self)
        ensures { IsImage self.now }
    {
        let _width = self.width;
    }

    /// The number of columns.
    pub(crate) fn width(&self) -> u32
        ensures value { result ≡ self.now.width }
        ensures some { 0 < result }
        ensures most { result ≤ 2048 }
    {
        self.width
    }

    /// The number of rows.
    pub(crate) fn height(&self) -> u32
        ensures value { result ≡ self.now.height }
        ensures some { 0 < result }
        ensures most { result ≤ 2048 }
    {
        self.height
    }

    /// The greatest value of a sample.
    pub(crate) fn most(&self) -> u32
        ensures value { result ≡ self.now.most }
        ensures some { 0 < result }
        ensures most { result ≤ 65535 }
    {
        self.most
    }

    /// How many bytes the samples take.
    pub(crate) fn byte_count(&self) -> u64
        ensures { result ≡ image_bytes self.now }
    {
        self.bytes.len() as u64
    }

    /// The sample of channel `c` in column `x` and row `y`, and 0 outside.
    #[inline(always)]
    #[tactic(auto, unfolding(crate::specs::Pyramid::sample))]
    pub(crate) fn sample(&self, c: usize, x: u32, y: u32) -> u64
        requires { c < 3 }
        ensures value { result ≡ sample self.now c x y }
        ensures bound { result ≤ 65535 }
    {
        if x >= self.width {
            return 0;
        }
        if y >= self.height {
            return 0;
        }
        let place = self.width as usize * y as usize + x as usize;
        number_at(self.most, self.bytes.as_slice(), 3 * place + c).min(self.most) as u64
    }
}

/// The sum of `m` samples of a row from column `x` on.
#[tactic(auto, unfolding(crate::specs::Pyramid::sum_to))]
fn row_sum(image: &Samples, c: usize, m: u32, x: u32, y: u32) -> u64
    requires channel { c < 3 }
    requires side { m ≤ 2048 }
    requires column { x ≤ 8388608 }
    ensures value { result ≡ sum_to m (λ i. sample image.now c (x + i) y) }
    ensures bound { result ≤ 65535 * m }
{
    let mut sum = 0u64;
    for i in 0..m {
        sum += image.sample(c, x + i, y);
    }
    sum
}

/// The sum of the samples in the square of side `m` in column `x` and row `y` of such squares.
#[tactic(auto, unfolding(crate::specs::Pyramid::sum_to, crate::specs::Pyramid::square_sum))]
pub(crate) fn direct_sum(image: &Samples, c: usize, m: u32, x: u32, y: u32) -> u64
    requires channel { c < 3 }
    requires side { m ≤ 2048 }
    requires column { x ≤ 2048 }
    requires row { y ≤ 2048 }
    ensures value { result ≡ square_sum image.now c m x y }
    ensures bound { result ≤ 65535 * 2048 * m }
{
    let mut sum = 0u64;
    for j in 0..m {
        sum += row_sum(image, c, m, x * m, y * m + j);
    }
    sum
}

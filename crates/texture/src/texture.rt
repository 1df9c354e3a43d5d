// Textures, and their texels.
ghost use Rattle.std.specs.Prelude.{◌≡◌, ◌≤◌, ◌<◌, ◌*◌, ◌/◌, ◌^◌, IfOk};
ghost use Rattle.texture.specs.Looks.{colour_of};
ghost use Rattle.texture.specs.Images.{Image, IsImage, image_bytes, most_side};
ghost use Rattle.texture.specs.Channels.{AreOf, AreAtMost};
ghost use Rattle.texture.specs.Tables.{AreFirst};
ghost use Rattle.texture.specs.Pyramid.{square_sum, inside as inside_of, side_at, texel};

use crate::channels::{Channels, square_sums};
use crate::places::inside;
use crate::samples::Samples;
use crate::sums::{Sums, doubled, first, squares};
use crate::texel::Texel;
use fixed_math::NoMemory;
use std::alloc::Global;
use std::marker::Model;

/// A texture: its samples, and sums of them for the coarser levels. Contracts see it as its image.
#[derive(Drop)]
pub struct Texture {
    image: Samples,
    tables: Vec<Sums>,
}

impl Model for Texture {
    ghost Value = { Image };

    ghost view = { λ t. t.image };

    ghost invariant = { λ t. AreFirst 9 t.image t.tables.items };
}

impl Texture {
    /// The texture of these samples, with the sums of its levels from 3 to 11, or want of memory.
    pub(crate) fn new(alloc: Global, image: Samples) -> Result<Texture, NoMemory>
        ensures { IfOk result (λ t. t ≡ image) }
    {
        let tables = tables_of(alloc, &image)?;
        Ok(Texture { image, tables })
    }

    /// Does nothing: a call tells a proof what holds of every image.
    pub(crate) fn recall(&self)
        ensures { IsImage self.now }
    {
        self.image.recall();
    }

    /// The number of columns of samples, from 1 to 2,048.
    pub fn width(&self) -> u32
        ensures value { result ≡ self.now.width }
        ensures some { 1 ≤ result }
        ensures most { result ≤ 2048 }
    {
        self.image.width()
    }

    /// The number of rows of samples, from 1 to 2,048.
    pub fn height(&self) -> u32
        ensures value { result ≡ self.now.height }
        ensures some { 1 ≤ result }
        ensures most { result ≤ 2048 }
    {
        self.image.height()
    }

    /// How many bytes the samples have in the file.
    pub fn sample_bytes(&self) -> u64
        ensures { result ≡ image_bytes self.now }
    {
        self.image.byte_count()
    }

    /// The sums over the square of level `l` in column `x` and row `y`.
    fn sums(&self, l: u32, x: u32, y: u32) -> Channels
        requires level { l ≤ 11 }
        requires column { x ≤ 2048 }
        requires row { y ≤ 2048 }
        ensures each { AreOf (λ c. square_sum self.now c (2 ^ l) x y) result }
        ensures most { AreAtMost (65535 * 4194304) result }
    {
        let m = side_of(l);
        if l < 3 {
            return square_sums(&self.image, m, x, y);
        }
        self.tables[l as usize - 3].all_at(&self.image, m, x, y)
    }

    /// The number of the image's samples of a channel in a square, times the greatest value.
    fn whole(&self, m: u32, x: u32, y: u32) -> u64
        requires some { 0 < m }
        requires side { m ≤ 2048 }
        requires column { x < side_at self.now.width m }
        requires row { y < side_at self.now.height m }
        requires left { x ≤ 2048 }
        requires up { y ≤ 2048 }
        ensures value { result ≡ self.now.most * (inside_of self.now.width m x * inside_of self.now.height m y) }
        ensures some { 0 < result }
    {
        let across = inside(self.image.width(), m, x);
        let up = inside(self.image.height(), m, y);
        self.image.most() as u64 * (across as u64 * up as u64)
    }

    /// The texel of level `l` in column `x` and row `y`.
    pub(crate) fn texel(&self, l: u32, x: u32, y: u32) -> Texel
        requires level { l ≤ 11 }
        requires column { x < side_at self.now.width (2 ^ l) }
        requires row { y < side_at self.now.height (2 ^ l) }
        requires left { x ≤ 2048 }
        requires up { y ≤ 2048 }
        ensures { colour_of result ≡ texel self.now l x y }
    {
        self.image.recall();
        let whole = self.whole(side_of(l), x, y);
        let sums = self.sums(l, x, y);
        let red = mean(sums.red, whole);
        let green = mean(sums.green, whole);
        let blue = mean(sums.blue, whole);
        Texel { red, green, blue }
    }

    /// The greater side.
    pub(crate) fn most_side(&self) -> u32
        ensures value { result ≡ most_side self.now }
        ensures bound { result ≤ 2048 }
    {
        self.image.width().max(self.image.height())
    }

    /// The number of columns of level `l`.
    pub(crate) fn columns(&self, l: u32) -> u32
        requires { l ≤ 11 }
        ensures value { result ≡ side_at self.now.width (2 ^ l) }
        ensures some { 0 < result }
        ensures most { result ≤ 2048 }
    {
        squares(self.image.width(), side_of(l))
    }

    /// The number of rows of level `l`.
    pub(crate) fn rows(&self, l: u32) -> u32
        requires { l ≤ 11 }
        ensures value { result ≡ side_at self.now.height (2 ^ l) }
        ensures some { 0 < result }
        ensures most { result ≤ 2048 }
    {
        squares(self.image.height(), side_of(l))
    }
}

/// The sums of the levels from 3 to 11, or want of memory.
fn tables_of(alloc: Global, image: &Samples) -> Result<Vec<Sums>, NoMemory>
    ensures { IfOk result (λ ts. AreFirst 9 image.now ts.items) }
{
    let mut tables = Vec::new(alloc);
    tables.push(first(alloc, image)?)?;
    for i in 0..8u32 {
        let next = doubled(alloc, &tables[i as usize], image, side_of(3 + i))?;
        tables.push(next)?;
    }
    Ok(tables)
}

/// The side of the squares of level `l`.
#[tactic(auto, using(crate::proofs::Sides::side_is, crate::proofs::Sides::side_most))]
pub(crate) fn side_of(l: u32) -> u32
    requires { l ≤ 11 }
    ensures value { result ≡ 2 ^ l }
    ensures some { 0 < result }
    ensures most { result ≤ 2048 }
{
    1 << l
}

/// `sum` as a part of `whole`, over 65536 and rounded down.
#[tactic(auto, using(crate::proofs::Sides::mean_most))]
fn mean(sum: u64, whole: u64) -> u32
    requires some { 0 < whole }
    requires part { sum ≤ whole }
    requires small { sum ≤ 2 ^ 40 }
    ensures value { result ≡ 65536 * sum / whole }
    ensures most { result ≤ 65536 }
{
    (65536 * sum / whole) as u32
}

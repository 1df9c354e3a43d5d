// Sums of samples over squares.
ghost use Rattle.std.specs.Prelude.{◌≡◌, ◌≤◌, ◌<◌, ◌*◌, ◌+◌, IfOk};
ghost use Rattle.texture.specs.Channels.{AreOf, AreAtMost};
ghost use Rattle.texture.specs.Tables.{Table, AreSums};
ghost use Rattle.texture.specs.Pyramid.{square_sum, side_at};

use crate::channels::Channels;
use crate::samples::{Samples, direct_sum};
use fixed_math::NoMemory;
use std::alloc::Global;
use std::marker::Model;

/// The sums of an image's samples over all squares of one side, by rows, three a place.
#[derive(Drop)]
pub struct Sums {
    width: u32,
    height: u32,
    cells: Vec<u64>,
}

impl Model for Sums {
    ghost Value = { Table };

    ghost view = { λ s. record { width = s.width; height = s.height; cells = s.cells.items } };

    ghost invariant = { λ s. (s.width ≤ 2048) × (s.height ≤ 2048) };
}

impl Sums {
    /// The sum of channel `c` over the square in column `x` and row `y`, 0 outside.
    fn at(&self, image: &Samples, m: u32, c: usize, x: u32, y: u32) -> u64
        requires sums { AreSums image.now m self.now }
        requires some { 0 < m }
        requires side { m ≤ 2048 }
        requires channel { c < 3 }
        ensures value { result ≡ square_sum image.now c m x y }
        ensures bound { result ≤ 65535 * 4194304 }
    {
        image.recall();
        if x >= self.width {
            return 0;
        }
        if y >= self.height {
            return 0;
        }
        let place = y as usize * self.width as usize + x as usize;
        self.cells[place * 3 + c]
    }
}

impl Sums {
    /// The sums of all channels over the square in column `x` and row `y`, 0 outside.
    pub(crate) fn all_at(&self, image: &Samples, m: u32, x: u32, y: u32) -> Channels
        requires sums { AreSums image.now m self.now }
        requires some { 0 < m }
        requires side { m ≤ 2048 }
        ensures each { AreOf (λ c. square_sum image.now c m x y) result }
        ensures most { AreAtMost (65535 * 4194304) result }
    {
        Channels {
            red: self.at(image, m, 0, x, y),
            green: self.at(image, m, 1, x, y),
            blue: self.at(image, m, 2, x, y),
        }
    }
}

/// The sum over a square of side `m + m`, by the sums over its four quarters.
fn quarters(below: &Sums, image: &Samples, m: u32, c: usize, x: u32, y: u32) -> u64
    requires sums { AreSums image.now m below.now }
    requires some { 0 < m }
    requires side { m ≤ 2048 }
    requires channel { c < 3 }
    requires column { x ≤ 2048 }
    requires row { y ≤ 2048 }
    ensures { result ≡ square_sum image.now c (m + m) x y }
{
    let left = below.at(image, m, c, 2 * x, 2 * y) + below.at(image, m, c, 2 * x, 2 * y + 1);
    let right = below.at(image, m, c, 2 * x + 1, 2 * y)
        + below.at(image, m, c, 2 * x + 1, 2 * y + 1);
    left + right
}

/// The number of squares of side `m` that a side of an image has, the last one cut.
pub(crate) fn squares(side: u32, m: u32) -> u32
    requires some { 0 < m }
    requires here { 0 < side }
    requires small { m ≤ 4096 }
    requires side { side ≤ 2048 }
    ensures value { result ≡ side_at side m }
    ensures some { 0 < result }
    ensures bound { result ≤ 2048 }
{
    (side + (m - 1)) / m
}

#[tactic(auto, unfolding(crate::specs::Images::listed))]
/// The sums over all squares of side `m + m`, made from those of side `m`.
pub(crate) fn doubled(
    alloc: Global,
    below: &Sums,
    image: &Samples,
    m: u32,
) -> Result<Sums, NoMemory>
    requires sums { AreSums image.now m below.now }
    requires some { 0 < m }
    requires side { m ≤ 1024 }
    ensures { IfOk result (λ t. AreSums image.now (m + m) t) }
{
    let width = squares(image.width(), m + m);
    let height = squares(image.height(), m + m);
    let size = 3 * (width as usize * height as usize);
    let mut cells = Vec::new(alloc);
    for k in 0..size {
        let place = k / 3;
        let x = (place % width as usize) as u32;
        let y = (place / width as usize) as u32;
        cells.push(quarters(below, image, m, k % 3, x, y))?;
    }
    Ok(Sums {
        width,
        height,
        cells,
    })
}

/// The sums over all squares of side 8, made from the samples.
#[tactic(auto, unfolding(crate::specs::Images::listed))]
pub(crate) fn first(alloc: Global, image: &Samples) -> Result<Sums, NoMemory>
    ensures { IfOk result (λ t. AreSums image.now 8 t) }
{
    let width = squares(image.width(), 8);
    let height = squares(image.height(), 8);
    let size = 3 * (width as usize * height as usize);
    let mut cells = Vec::new(alloc);
    for k in 0..size {
        let place = k / 3;
        let x = (place % width as usize) as u32;
        let y = (place / width as usize) as u32;
        cells.push(direct_sum(image, k % 3, 8, x, y))?;
    }
    Ok(Sums {
        width,
        height,
        cells,
    })
}

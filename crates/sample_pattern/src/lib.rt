//! The sample pattern of a frame: where and when the picture is sampled.
//!
//! Every pixel is cut into `xs` by `ys` cells of equal size, and every cell has one sample at a place that a hash of
//! the pixel and the cell chooses (jittered sampling, as in Cook, Carpenter and Catmull, 1987). Places are in 1/256
//! pixel from the left upper corner of the frame.
#![tactic(auto)]

ghost use Rattle.std.specs.Prelude.{◌≡◌, ◌≤◌, ◌<◌, ◌+◌, ◌*◌, ◌/◌, ◌%◌, ◌^◌, ℕ, pos, [], ◌∷◌};
ghost use Rattle.fixed_math.specs.Hash.{hash32};
ghost use Rattle.sample_pattern.specs.Pattern.{hash_at, along, place_x, place_y, position, time};

use fixed_math::with_word;

/// The hash of a pixel, with which the hashes of its cells begin.
pub fn pixel_hash(x: u32, y: u32) -> u32
    ensures { result ≡ hash32 (x ∷ y ∷ []) }
{
    with_word(with_word(0, x), y)
}

/// The hash number `number` of a cell of a pixel with this hash.
#[tactic(auto, unfolding(crate::specs::Pattern::hash_at))]
fn hash_of(pixel: u32, cell: u32, number: u32) -> u32
    ensures { (x y : ℕ) → pixel ≡ hash32 (x ∷ y ∷ []) → result ≡ hash_at x y cell number }
{
    with_word(with_word(pixel, cell), number)
}

/// The place along one axis of the sample of cell `cell` of `cells` in pixel `pixel`.
fn place(pixel: u32, cell: u32, cells: u32, jitter: u32) -> u32
    requires pixel { pixel < 4096 }
    requires some { cell < cells }
    requires most { cells ≤ 16 }
    requires jitter { jitter < 256 }
    ensures value { result ≡ along pixel cell cells jitter }
    ensures inside { (256 * pixel ≤ result) × (result < 256 * pixel + 256) }
{
    256 * pixel + (256 * cell + jitter) / cells
}

/// The place of the sample of a cell of the pixel `x`, `y`, in 1/256 pixel: along x and along y. It lies in the pixel.
pub fn position(x: u32, y: u32, cell: u32, xs: u32, ys: u32) -> [i64; 2]
    requires x { x < 4096 }
    requires y { y < 4096 }
    requires xs { xs ≤ 16 }
    requires ys { ys ≤ 16 }
    requires cell { cell < xs * ys }
    ensures value { result ≡ position x y cell xs ys }
    ensures inside_x { (256 * x ≤ place_x x y cell xs) × (place_x x y cell xs < 256 * x + 256) }
    ensures inside_y { (256 * y ≤ place_y x y cell xs ys) × (place_y x y cell xs ys < 256 * y + 256) }
{
    position_in(pixel_hash(x, y), x, y, cell, xs, ys)
}

/// `position` where the pixel's hash is known.
pub fn position_in(hash: u32, x: u32, y: u32, cell: u32, xs: u32, ys: u32) -> [i64; 2]
    requires hash { hash ≡ hash32 (x ∷ y ∷ []) }
    requires x { x < 4096 }
    requires y { y < 4096 }
    requires xs { xs ≤ 16 }
    requires ys { ys ≤ 16 }
    requires cell { cell < xs * ys }
    ensures value { result ≡ position x y cell xs ys }
    ensures inside_x { (256 * x ≤ place_x x y cell xs) × (place_x x y cell xs < 256 * x + 256) }
    ensures inside_y { (256 * y ≤ place_y x y cell xs ys) × (place_y x y cell xs ys < 256 * y + 256) }
{
    let across = place(x, cell % xs, xs, hash_of(hash, cell, 0) % 256);
    let down = place(y, cell / xs, ys, hash_of(hash, cell, 1) % 256);
    [across as i64, down as i64]
}

/// The moment of the sample of a cell of the pixel `x`, `y`, in 1/65536 of the shutter's interval.
pub fn time(x: u32, y: u32, cell: u32) -> u16
    ensures { result ≡ time x y cell }
{
    (hash_of(pixel_hash(x, y), cell, 2) >> 16) as u16
}

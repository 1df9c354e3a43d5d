// The rows of a tile: places and fragments by the numbers of samples.
ghost use Rattle.std.specs.Prelude.{ℕ, ◌≡◌, ◌<◌, ◌≤◌, ◌+◌, ◌*◌, ◌↔◌, true, [], IsTrue, List, length, slice_index_or, vec_capacity};
ghost use Rattle.fixed_math.specs.Spots.{Spot};
ghost use Rattle.sample_pattern.specs.Pattern.{time};
ghost use Rattle.hider.specs.declared.fragment.Fragment.{Fragment};
ghost use Rattle.hider.specs.Kept.{blocks};
ghost use Rattle.hider.specs.Samples.{sample_at};
ghost use Rattle.hider.specs.Tiles.{IsSampleGrid, ArePlacesOf, AreTimesOf, AreEmpty, sample_count};

use crate::list::FragmentList;
use crate::sample_grid::SampleGrid;
use crate::sampling::place_at;
use crate::spot::Spot;
use fixed_math::Num;
use sample_pattern::{pixel_hash, time};

/// Appends the places of a pixel's samples, for which there is room.
fn push_pixel(spots: &mut Vec<Spot>, x: u32, y: u32, xs: u32, ys: u32)
    requires x { x < 4096 }
    requires y { y < 4096 }
    requires xs { xs ≤ 16 }
    requires ys { ys ≤ 16 }
    requires room { length spots.old.items + xs * ys ≤ vec_capacity spots.old }
    ensures long { length spots.new.items ≡ length spots.old.items + xs * ys }
    ensures room { vec_capacity spots.new ≡ vec_capacity spots.old }
    ensures kept { (m : ℕ) (d : Spot) → m < length spots.old.items → slice_index_or spots.new.items m d ≡ slice_index_or spots.old.items m d }
    ensures each { (c : ℕ) (d : Spot) → c < xs * ys → slice_index_or spots.new.items (length spots.old.items + c) d ≡ (sample_at xs ys x y c).place }
{
    let hash = pixel_hash(x, y);
    for cell in 0..xs * ys {
        spots.push_reserved(place_at(hash, x, y, cell, xs, ys));
    }
}

/// Puts the places of a grid's samples into a row that has room for them, pixel by pixel.
pub(crate) fn fill_places(spots: &mut Vec<Spot>, grid: &SampleGrid)
    requires valid { IsSampleGrid grid.now }
    requires room { sample_count grid.now ≤ vec_capacity spots.old }
    ensures { ArePlacesOf grid.now spots.new.items }
{
    spots.clear();
    for pixel in 0..grid.width() * grid.height() {
        let [x, y] = grid.pixel(pixel);
        push_pixel(spots, x, y, grid.xs, grid.ys);
    }
}

/// Appends the times of a pixel's samples, for which there is room.
fn push_times(times: &mut Vec<u16>, x: u32, y: u32, per_pixel: u32)
    requires x { x < 4096 }
    requires y { y < 4096 }
    requires room { length times.old.items + per_pixel ≤ vec_capacity times.old }
    ensures long { length times.new.items ≡ length times.old.items + per_pixel }
    ensures room { vec_capacity times.new ≡ vec_capacity times.old }
    ensures kept { (m d : ℕ) → m < length times.old.items → slice_index_or times.new.items m d ≡ slice_index_or times.old.items m d }
    ensures each { (c d : ℕ) → c < per_pixel → slice_index_or times.new.items (length times.old.items + c) d ≡ time x y c }
{
    for cell in 0..per_pixel {
        times.push_reserved(time(x, y, cell));
    }
}

/// Puts the times of a grid's samples into a row that has room for them, pixel by pixel.
pub(crate) fn fill_times(times: &mut Vec<u16>, grid: &SampleGrid)
    requires valid { IsSampleGrid grid.now }
    requires room { sample_count grid.now ≤ vec_capacity times.old }
    ensures { AreTimesOf grid.now times.new.items }
{
    times.clear();
    for pixel in 0..grid.width() * grid.height() {
        let [x, y] = grid.pixel(pixel);
        push_times(times, x, y, grid.xs * grid.ys);
    }
}

/// Empties the lists of fragments.
fn clear(lists: &mut [FragmentList])
    ensures { AreEmpty lists.new }
{
    for n in 0..lists.len() {
        lists[n].clear();
    }
}

/// Makes a row of at least so many empty lists, where it has room for them.
pub(crate) fn fill_lists(lists: &mut Vec<FragmentList>, count: usize)
    requires { count ≤ vec_capacity lists.old }
    ensures enough { count ≤ length lists.new.items }
    ensures empty { AreEmpty lists.new.items }
{
    clear(lists);
    let alloc = *lists.allocator();
    while lists.len() < count {
        lists.push_reserved(FragmentList::new(alloc));
    }
}

/// The first sample from number `from` on at which no opaque fragment shows, and `count` where one shows at each.
pub(crate) fn next_open(lists: &[FragmentList], from: usize, count: usize) -> usize
    requires { count ≤ length lists.now }
    ensures { result ≤ count }
{
    let farthest = Num::sat(2147483647);
    for n in from..count {
        if !lists[n].blocks(farthest) {
            return n;
        }
    }
    count
}

/// Whether an opaque fragment lies nearer than `z` at each of the first samples. Sample `open` is asked first, since it may
/// tell at once that it isn't so.
pub(crate) fn all_block(lists: &[FragmentList], count: usize, open: usize, z: Num) -> bool
    requires { count ≤ length lists.now }
    ensures { IsTrue result ↔ ((n : ℕ) (d : List Fragment) → n < count → blocks z (slice_index_or lists.now n d) ≡ true) }
{
    if open < count {
        if !lists[open].blocks(z) {
            return false;
        }
    }
    for n in 0..count {
        if !lists[n].blocks(z) {
            return false;
        }
    }
    true
}

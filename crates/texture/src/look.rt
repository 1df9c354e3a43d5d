// Where a look-up falls, and the mix of texels.
ghost use Rattle.std.specs.Prelude.{◌≡◌, ◌≤◌, ◌<◌, ◌^◌, ◌+ℤ◌, ◌-ℤ◌, ◌*ℤ◌, pos, unsigned_abs, IsTrue};
ghost use Rattle.fixed_math.specs.Whole.{floor_by};
ghost use Rattle.texture.specs.Around.{IsSpot, IsInOneTile, first_tile, mixed_of};
ghost use Rattle.texture.specs.Looks.{blend, blend_all, colour_of, exact_of, place_of, rest_of, put_into};

use crate::texel::Texel;
use fixed_math::Num;
use std::simd::prelude::*;

/// Where a look-up falls between the columns or rows of a level: the two whose texels it mixes, and how far it lies beyond the middle of
/// the first, in 65536ths of a texel.
#[derive(Clone, Copy)]
pub(crate) struct Spot {
    pub(crate) first: u32,
    pub(crate) second: u32,
    pub(crate) rest: u32,
}

/// Which 32 by 32 texels a slot keeps: of texture `which`, at `level`, the tile in `column` and `row`.
#[derive(Clone, Copy)]
pub(crate) struct Tile {
    pub(crate) which: u32,
    pub(crate) level: u32,
    pub(crate) column: u32,
    pub(crate) row: u32,
}

/// Four texels of a level of a texture, which a look-up mixes.
#[derive(Clone, Copy)]
pub(crate) struct Around {
    pub(crate) which: u32,
    pub(crate) level: u32,
    pub(crate) across: Spot,
    pub(crate) up: Spot,
}

/// The four texels.
#[derive(Clone, Copy)]
pub(crate) struct Corners {
    pub(crate) left: Texel,
    pub(crate) right: Texel,
    pub(crate) below_left: Texel,
    pub(crate) below_right: Texel,
}

impl Around {
    /// Whether one tile has all four.
    pub(crate) fn is_in_one_tile(&self) -> bool
        ensures { IsTrue result → IsInOneTile self.now }
    {
        self.across.first / 32 == self.across.second / 32
            && self.up.first / 32 == self.up.second / 32
    }

    /// The tile of the first.
    pub(crate) fn tile(&self) -> Tile
        ensures { result ≡ first_tile self.now }
    {
        Tile {
            which: self.which,
            level: self.level,
            column: self.across.first / 32,
            row: self.up.first / 32,
        }
    }
}

/// The whole texels in 65536ths of one, rounded down. A shift needs no test of the sign.
fn place_at(exact: i64) -> i64
    ensures { result ≡ floor_by exact 65536 }
{
    exact >> 16
}

/// How far it lies beyond that.
fn beyond(exact: i64, place: i64) -> u32
    requires place { place ≡ floor_by exact 65536 }
    requires small { unsigned_abs exact ≤ 2 ^ 43 }
    ensures value { pos result ≡ exact -ℤ pos 65536 *ℤ place }
    ensures bound { result < 65536 }
{
    (exact - 65536 * place) as u32
}

/// How far `s` lies from the middle of the first of `side` columns, in 65536ths of one.
fn exact_at(s: Num, side: u32) -> i64
    requires { side ≤ 2048 }
    ensures value { result ≡ exact_of s side }
    ensures small { unsigned_abs result ≤ 2 ^ 43 }
{
    side as i64 * s.raw() - 32768
}

/// Where `s` falls among `side` columns.
pub(crate) fn spot_of(s: Num, side: u32) -> Spot
    requires some { 0 < side }
    requires small { side ≤ 2048 }
    ensures first { result.first ≡ put_into (place_of s side) side }
    ensures second { result.second ≡ put_into (place_of s side +ℤ pos 1) side }
    ensures rest { pos result.rest ≡ rest_of s side }
    ensures inside { IsSpot side result }
{
    let exact = exact_at(s, side);
    let place = place_at(exact);
    Spot {
        first: put(place, side),
        second: put(place + 1, side),
        rest: beyond(exact, place),
    }
}

/// A column or row put into a level of `side` of them.
fn put(place: i64, side: u32) -> u32
    requires some { 0 < side }
    requires small { side ≤ 2048 }
    ensures value { result ≡ put_into place side }
    ensures bound { result < side }
{
    if place < 0 {
        return 0;
    }
    if place >= side as i64 {
        return side - 1;
    }
    place as u32
}

/// From `a` to `b`, `t` of the way, each channel in its lane: what `a` loses is rounded up, so that what it keeps is rounded down, and
/// nothing passes 32 bits.
#[inline(always)]
fn mix(a: Texel, b: Texel, t: u32) -> Texel
    requires { t < 65536 }
    ensures { colour_of result ≡ blend_all (colour_of a) (colour_of b) (pos t) }
{
    let from = u32x4::from_array([a.red, a.green, a.blue, 0]);
    let to = u32x4::from_array([b.red, b.green, b.blue, 0]);
    let way = u32x4::splat(t);
    let lost = (from * way + u32x4::splat(65535)) >> u32x4::splat(16);
    let gained = (to * way) >> u32x4::splat(16);
    let [red, green, blue, _] = (from - lost + gained).to_array();
    Texel { red, green, blue }
}

impl Around {
    /// The mix of the four, by rows.
    #[inline(always)]
    pub(crate) fn mixed(&self, of: Corners) -> Texel
        requires across { self.now.across.rest < 65536 }
        requires up { self.now.up.rest < 65536 }
        ensures { colour_of result ≡ mixed_of self.now (colour_of of.left) (colour_of of.right) (colour_of of.below_left) (colour_of of.below_right) }
    {
        let first = mix(of.left, of.right, self.across.rest);
        let second = mix(of.below_left, of.below_right, self.across.rest);
        mix(first, second, self.up.rest)
    }
}

// A cache of tiles.
ghost use Rattle.std.specs.Prelude.{◌≡◌, ◌≢◌, ◌≤◌, ◌<◌, ◌%◌, ◌*◌, ◌+◌, ◌^◌, ℕ, Some, None, cond, length, get_or, is_some, IsTrue, IfOk, IfSome};
ghost use Rattle.std.specs.List.{count_by};
ghost use Rattle.texture.specs.Images.{Image};
ghost use Rattle.texture.specs.Pyramid.{side_at, texel};
ghost use Rattle.texture.specs.Around.{IsAround, IsInOneTile, IsTexel, AreKnown, first_tile, mixed_at};
ghost use Rattle.texture.specs.Looks.{colour_of, look_of};
ghost use Rattle.texture.specs.Slots.{Held, Kept, AreEmpty, AreKept, AreOf, IsBrought, slot_of, keys_of, put as put_key, put_four, slots_after, tile_at, no_image, empty};

use crate::look::{Around, Corners, Tile, spot_of};
use crate::texel::Texel;
use crate::texture::Texture;
use fixed_math::{NoMemory, Num, Vec3, hash32};
use std::alloc::Global;
use std::marker::Model;

/// A slot of the cache: nothing, or a tile with those of its texels, by rows, that were asked for.
#[derive(Drop)]
pub(crate) struct Slot {
    tile: Option<Tile>,
    texels: Vec<Option<Texel>>,
}

impl Model for Slot {
    ghost Value = { Held };

    ghost view = { λ s. record { tile = s.tile; texels = s.texels.items } };

    ghost invariant = { λ s. length s.texels.items ≡ 1024 };
}

impl Slot {
    /// A slot that keeps nothing, with room for a tile, or want of memory.
    fn empty(alloc: Global) -> Result<Slot, NoMemory>
        ensures { IfOk result (λ s. s.tile ≡ None) }
    {
        let mut texels = Vec::new(alloc);
        for _ in 0..1024u32 {
            texels.push(None)?;
        }
        Ok(Slot { tile: None, texels })
    }

    /// How many tiles the slot keeps: 0 or 1.
    fn tile_count(&self) -> usize
        ensures value { result ≡ cond (is_some self.now.tile) 1 0 }
        ensures most { result ≤ 1 }
    {
        match self.tile {
            None => 0,
            Some(_) => 1,
        }
    }

    /// Whether the slot keeps this tile.
    fn keeps(&self, tile: Tile) -> bool
        ensures { IsTrue result → self.now.tile ≡ Some tile }
    {
        match self.tile {
            None => false,
            Some(kept) => {
                kept.which == tile.which
                    && kept.level == tile.level
                    && kept.column == tile.column
                    && kept.row == tile.row
            }
        }
    }

    /// Gives the slot to a tile, of which no texel is known yet.
    #[tactic(auto, using(crate::proofs::Filled::cleared_none, crate::proofs::Filled::cleared_more))]
    fn take_up(&mut self, tile: Tile)
        ensures tile { self.new.tile ≡ Some tile }
        ensures none { (i : ℕ) → get_or self.new.texels i None ≡ None }
    {
        for i in 0..1024u32 {
            self.texels[i as usize] = None;
        }
        self.tile = Some(tile);
    }

    /// The texel in column `x` and row `y` of the level of the slot's tile, where it is known.
    #[inline(always)]
    fn known(&self, x: u32, y: u32) -> Option<Texel>
        ensures { result ≡ get_or self.now.texels (y % 32 * 32 + x % 32) None }
    {
        self.texels[(y % 32 * 32 + x % 32) as usize]
    }

    // The same, which is worked out and kept.
    fn learn(&mut self, texture: &Texture, tile: Tile, x: u32, y: u32) -> Texel
        requires texels { AreOf texture.now tile self.old.texels }
        requires level { tile.level ≤ 11 }
        requires inside { IsTexel texture.now tile x y }
        ensures value { colour_of result ≡ texel texture.now tile.level x y }
        ensures tile { self.new.tile ≡ self.old.tile }
        ensures texels { AreOf texture.now tile self.new.texels }
    {
        let texel = texture.texel(tile.level, x, y);
        self.texels[(y % 32 * 32 + x % 32) as usize] = Some(texel);
        texel
    }

    /// The same, which is worked out where it isn't known.
    fn texel(&mut self, texture: &Texture, tile: Tile, x: u32, y: u32) -> Texel
        requires texels { AreOf texture.now tile self.old.texels }
        requires level { tile.level ≤ 11 }
        requires inside { IsTexel texture.now tile x y }
        ensures value { colour_of result ≡ texel texture.now tile.level x y }
        ensures tile { self.new.tile ≡ self.old.tile }
        ensures texels { AreOf texture.now tile self.new.texels }
    {
        match self.known(x, y) {
            Some(texel) => texel,
            None => self.learn(texture, tile, x, y),
        }
    }

    /// The four texels around a place in the slot's tile, where all are known.
    #[inline(always)]
    fn corners(&self, a: &Around) -> Option<Corners>
        ensures { IfSome result (λ c. AreKnown self.now.texels a.now c) }
    {
        let (across, up) = (a.across, a.up);
        match (
            self.known(across.first, up.first),
            self.known(across.second, up.first),
            self.known(across.first, up.second),
            self.known(across.second, up.second),
        ) {
            (Some(left), Some(right), Some(below_left), Some(below_right)) => Some(Corners {
                left,
                right,
                below_left,
                below_right,
            }),
            _ => None,
        }
    }

    // The mix of four texels of the slot's tile, of which each is worked out where it isn't known.
    fn learn_mixed(&mut self, texture: &Texture, a: Around) -> Texel
        requires texels { AreOf texture.now (first_tile a) self.old.texels }
        requires around { IsAround texture.now a }
        requires one { IsInOneTile a }
        ensures value { colour_of result ≡ mixed_at texture.now a }
        ensures tile { self.new.tile ≡ self.old.tile }
        ensures texels { AreOf texture.now (first_tile a) self.new.texels }
    {
        let tile = a.tile();
        let left = self.texel(texture, tile, a.across.first, a.up.first);
        let right = self.texel(texture, tile, a.across.second, a.up.first);
        let below_left = self.texel(texture, tile, a.across.first, a.up.second);
        let below_right = self.texel(texture, tile, a.across.second, a.up.second);
        a.mixed(Corners {
            left,
            right,
            below_left,
            below_right,
        })
    }

    /// The mix of four texels of the slot's tile.
    #[inline(always)]
    fn mixed(&mut self, texture: &Texture, a: Around) -> Texel
        requires texels { AreOf texture.now (first_tile a) self.old.texels }
        requires around { IsAround texture.now a }
        requires one { IsInOneTile a }
        ensures value { colour_of result ≡ mixed_at texture.now a }
        ensures tile { self.new.tile ≡ self.old.tile }
        ensures texels { AreOf texture.now (first_tile a) self.new.texels }
    {
        match self.corners(&a) {
            Some(corners) => a.mixed(corners),
            None => self.learn_mixed(texture, a),
        }
    }
}

/// The slot of a tile.
fn slot_at(tile: Tile) -> usize
    ensures value { result ≡ slot_of tile }
    ensures bound { result < 256 }
{
    let hash = hash32(&[tile.which, tile.level, tile.column, tile.row]);
    hash as usize % 256
}

/// Sees to it that a tile is in its slot.
fn bring(slots: &mut Vec<Slot>, place: usize, tile: Tile)
    requires there { place < length slots.old.items }
    requires own { place ≡ slot_of tile }
    ensures { (p : Image) → ((get_or slots.old.items place empty).tile ≡ Some tile → AreOf p tile (get_or slots.old.items place empty).texels) → IsBrought p tile place slots.old.items slots.new.items }
{
    if slots[place].keeps(tile) {
        return;
    }
    slots[place].take_up(tile);
}

/// A texel of a tile, which is brought into its slot.
fn texel_in(
    slots: &mut Vec<Slot>,
    place: usize,
    texture: &Texture,
    tile: Tile,
    x: u32,
    y: u32,
) -> Texel
    requires there { place < length slots.old.items }
    requires own { place ≡ slot_of tile }
    requires kept { (get_or slots.old.items place empty).tile ≡ Some tile → AreOf texture.now tile (get_or slots.old.items place empty).texels }
    requires level { tile.level ≤ 11 }
    requires inside { IsTexel texture.now tile x y }
    ensures value { colour_of result ≡ texel texture.now tile.level x y }
    ensures slots { IsBrought texture.now tile place slots.old.items slots.new.items }
{
    bring(slots, place, tile);
    slots[place].texel(texture, tile, x, y)
}

/// The mix of four texels of a tile that its slot keeps.
#[inline(always)]
fn mix_kept(slots: &mut Vec<Slot>, place: usize, texture: &Texture, a: Around) -> Texel
    requires there { place < length slots.old.items }
    requires own { place ≡ slot_of (first_tile a) }
    requires tile { (get_or slots.old.items place empty).tile ≡ Some (first_tile a) }
    requires kept { AreOf texture.now (first_tile a) (get_or slots.old.items place empty).texels }
    requires around { IsAround texture.now a }
    requires one { IsInOneTile a }
    ensures value { colour_of result ≡ mixed_at texture.now a }
    ensures slots { IsBrought texture.now (first_tile a) place slots.old.items slots.new.items }
{
    slots[place].mixed(texture, a)
}

/// The mix of four texels of a tile, which is brought into its slot.
fn mix_in(slots: &mut Vec<Slot>, place: usize, texture: &Texture, a: Around) -> Texel
    requires there { place < length slots.old.items }
    requires own { place ≡ slot_of (first_tile a) }
    requires kept { (get_or slots.old.items place empty).tile ≡ Some (first_tile a) → AreOf texture.now (first_tile a) (get_or slots.old.items place empty).texels }
    requires around { IsAround texture.now a }
    requires one { IsInOneTile a }
    ensures value { colour_of result ≡ mixed_at texture.now a }
    ensures slots { IsBrought texture.now (first_tile a) place slots.old.items slots.new.items }
{
    bring(slots, place, a.tile());
    slots[place].learn_mixed(texture, a)
}

/// Look-ups of textures through a cache of at most 256 tiles. Contracts see it as its textures and the tiles of its slots.
#[derive(Drop)]
pub struct Cache<'t> {
    textures: &'t [Texture],
    slots: Vec<Slot>,
    last: usize,
}

impl<'t> Model for Cache<'t> {
    ghost Value = { Kept };

    ghost view = { λ c. record { textures = c.textures.now; slots = keys_of c.slots.items } };

    ghost invariant = { λ c. AreKept c.textures.now c.slots.items × (c.last < 256) };
}

impl<'t> Cache<'t> {
    /// A cache of these textures that keeps no tile, or want of memory. It takes 4 MB, and no later call takes any.
    #[tactic(auto, using(crate::proofs::Filled::bare_none, crate::proofs::Filled::bare_more, crate::proofs::Filled::bare_kept, crate::proofs::Filled::bare_empty))]
    pub fn new(alloc: Global, textures: &'t [Texture]) -> Result<Cache<'t>, NoMemory>
        ensures textures { IfOk result (λ c. c.textures ≡ textures.now) }
        ensures slots { IfOk result (λ c. AreEmpty c.slots) }
    {
        let mut slots = Vec::new(alloc);
        for _ in 0..256u32 {
            slots.push(Slot::empty(alloc)?)?;
        }
        Ok(Cache {
            textures,
            slots,
            last: 0,
        })
    }

    /// The texel of level `l` of texture `which` in column `x` and row `y`, through the cache.
    fn texel(&mut self, which: u32, l: u32, x: u32, y: u32) -> Texel
        requires there { which < length self.old.textures }
        requires level { l ≤ 11 }
        requires column { x < side_at (get_or self.old.textures which no_image).width (2 ^ l) }
        requires row { y < side_at (get_or self.old.textures which no_image).height (2 ^ l) }
        requires left { x ≤ 2048 }
        requires up { y ≤ 2048 }
        ensures value { colour_of result ≡ texel (get_or self.old.textures which no_image) l x y }
        ensures slots { self.new.slots ≡ put_key self.old.slots (tile_at which l x y) }
        ensures textures { self.new.textures ≡ self.old.textures }
    {
        let tile = Tile {
            which,
            level: l,
            column: x / 32,
            row: y / 32,
        };
        let place = slot_at(tile);
        let texture = self.texture(which);
        texel_in(&mut self.slots, place, texture, tile, x, y)
    }

    /// The colour at `s` and `t` of level `l` of texture `which`: the four texels around the place, mixed. 0 and 1 are the edges of the
    /// texture, from the left and from the top, and past them its last texels go on. The tiles of the four texels are put into their
    /// slots, each in place of the tile there.
    pub fn look(&mut self, which: u32, l: u8, s: Num, t: Num) -> Vec3
        requires there { which < length self.old.textures }
        requires level { l ≤ 11 }
        ensures value { result ≡ look_of (get_or self.old.textures which no_image) l s t }
        ensures slots { self.new.slots ≡ slots_after self.old.slots which (get_or self.old.textures which no_image) l s t }
        ensures textures { self.new.textures ≡ self.old.textures }
    {
        let l = l as u32;
        let around = Around {
            which,
            level: l,
            across: spot_of(s, self.columns(which, l)),
            up: spot_of(t, self.rows(which, l)),
        };
        if around.is_in_one_tile() {
            self.look_in_one(around)
        } else {
            self.look_in_four(around)
        }
    }

    // The mix of four texels of one tile.
    fn look_in_one(&mut self, a: Around) -> Vec3
        requires there { a.which < length self.old.textures }
        requires around { IsAround (get_or self.old.textures a.which no_image) a }
        requires one { IsInOneTile a }
        ensures value { result ≡ mixed_at (get_or self.old.textures a.which no_image) a }
        ensures slots { self.new.slots ≡ put_key self.old.slots (first_tile a) }
        ensures textures { self.new.textures ≡ self.old.textures }
    {
        let tile = a.tile();
        let texture = self.texture(a.which);
        let last = &self.slots[self.last];
        if last.keeps(tile) {
            return mix_kept(&mut self.slots, self.last, texture, a).colour();
        }
        let place = slot_at(tile);
        self.last = place;
        mix_in(&mut self.slots, place, texture, a).colour()
    }

    // The mix of four texels, each through the cache.
    fn look_in_four(&mut self, a: Around) -> Vec3
        requires there { a.which < length self.old.textures }
        requires around { IsAround (get_or self.old.textures a.which no_image) a }
        ensures value { result ≡ mixed_at (get_or self.old.textures a.which no_image) a }
        ensures slots { self.new.slots ≡ put_four self.old.slots a.which a.level a.across.first a.across.second a.up.first a.up.second }
        ensures textures { self.new.textures ≡ self.old.textures }
    {
        let left = self.texel(a.which, a.level, a.across.first, a.up.first);
        let right = self.texel(a.which, a.level, a.across.second, a.up.first);
        let below_left = self.texel(a.which, a.level, a.across.first, a.up.second);
        let below_right = self.texel(a.which, a.level, a.across.second, a.up.second);
        a.mixed(Corners {
            left,
            right,
            below_left,
            below_right,
        })
        .colour()
    }

    /// The texture of a number.
    fn texture(&self, which: u32) -> &'t Texture
        requires { which < length self.now.textures }
        ensures { result.now ≡ get_or self.now.textures which no_image }
    {
        let textures = self.textures;
        &textures[which as usize]
    }

    /// The number of columns of level `l` of texture `which`.
    fn columns(&self, which: u32, l: u32) -> u32
        requires there { which < length self.now.textures }
        requires level { l ≤ 11 }
        ensures value { result ≡ side_at (get_or self.now.textures which no_image).width (2 ^ l) }
        ensures some { 0 < result }
        ensures most { result ≤ 2048 }
    {
        self.texture(which).columns(l)
    }

    /// The number of rows of level `l` of texture `which`.
    fn rows(&self, which: u32, l: u32) -> u32
        requires there { which < length self.now.textures }
        requires level { l ≤ 11 }
        ensures value { result ≡ side_at (get_or self.now.textures which no_image).height (2 ^ l) }
        ensures some { 0 < result }
        ensures most { result ≤ 2048 }
    {
        self.texture(which).rows(l)
    }

    /// The textures, as `new` was given them.
    pub fn textures(&self) -> &'t [Texture]
        ensures { result.now ≡ self.now.textures }
    {
        self.textures
    }

    /// How many of its 256 slots keep a tile.
    pub fn tiles(&self) -> usize
        ensures value { result ≡ count_by is_some self.now.slots }
        ensures most { result ≤ 256 }
    {
        let mut count = 0;
        for i in 0..self.slots.len() {
            let slot = &self.slots[i];
            count += slot.tile_count();
        }
        count
    }
}

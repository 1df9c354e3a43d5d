// The textures of a scene, through a cache where there are some.
ghost use Rattle.std.specs.Prelude.{◌≡◌, IfOk};
ghost use Rattle.displace_shade.specs.Cached.{CacheValue, AreCached};

use fixed_math::{NoMemory, Num, Vec3};
use grid_machine::Textures;
use std::alloc::Global;
use std::marker::Model;
use texture::{Cache, Texture};

/// The textures of a scene as its shaders look them up. A scene without textures has no cache, whose tiles would take memory for nothing.
#[derive(Drop)]
pub(crate) struct TextureCache<'t> {
    textures: &'t [Texture],
    tiles: Option<Cache<'t>>,
}

impl<'t> Model for TextureCache<'t> {
    ghost Value = { CacheValue };

    ghost view = { λ c. record { textures = c.textures.now } };

    ghost invariant = { λ c. AreCached c.textures.now c.tiles };
}

impl<'t> TextureCache<'t> {
    /// The textures, with a cache that keeps no tile where there are some, or want of memory. No later call takes any.
    pub(crate) fn new(alloc: Global, textures: &'t [Texture]) -> Result<TextureCache<'t>, NoMemory>
        ensures { IfOk result (λ c. c.textures ≡ textures.now) }
    {
        let tiles = if textures.is_empty() {
            None
        } else {
            Some(Cache::new(alloc, textures)?)
        };
        Ok(TextureCache { textures, tiles })
    }

    /// The textures, as `new` was given them.
    pub(crate) fn textures(&self) -> &'t [Texture]
        ensures { result.now ≡ self.now.textures }
    {
        self.textures
    }
}

impl Textures for TextureCache<'_> {
    ghost images = { λ c. c.textures };

    fn count(&self) -> usize {
        self.textures.len()
    }

    fn width(&self, which: u32) -> u32 {
        match &self.tiles {
            Some(cache) => cache.width(which),
            None => 0,
        }
    }

    fn height(&self, which: u32) -> u32 {
        match &self.tiles {
            Some(cache) => cache.height(which),
            None => 0,
        }
    }

    fn colour(&mut self, which: u32, step: i64, s: Num, t: Num) -> Vec3 {
        match &mut self.tiles {
            Some(cache) => cache.colour(which, step, s, t),
            None => Vec3::default(),
        }
    }
}

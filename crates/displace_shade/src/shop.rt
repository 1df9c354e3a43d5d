// The shaders of a scene at work: leaves shaded, and how many.
ghost use Rattle.std.specs.Prelude.{◌≡◌, ◌≤◌, ◌<◌, ◌+◌, All, Some, length, slice_get, IfOk, MatchResult};
ghost use Rattle.scene.specs.Scene.{FrameValue, PrimValue, HasUses};
ghost use Rattle.shader_binding.specs.Sets.{Fits};
ghost use Rattle.shader_binding.specs.Bindings.{FitsPrim};
ghost use Rattle.displace_shade.specs.Pieces.{FitsPiece, IsShadedIn, IsShaded, ClosesIn, Closes};
ghost use Rattle.displace_shade.specs.Shop.{shop_set, leaf_of};
ghost use Rattle.displace_shade.specs.Stages.{set_in};

use crate::cached::TextureCache;
use crate::leaves::{Shaders, shaded_leaf};
use crate::set::ShaderSet;
use bumpalo::Bump;
use dice::GridRef;
use fixed_math::NoMemory;
use grid_variables::Leaf;
use patches::Piece;
use scene::{Frame, Scene, ShaderUse};
use std::alloc::Global;
use texture::Texture;

/// The leaf of a piece of a primitive of a frame.
fn leaf_at<'s>(frame: &'s Frame, piece: &'s Piece, p: u8, q: u8) -> Leaf<'s>
    requires prim { piece.now.prim < length frame.now.prims }
    requires columns { p ≤ 4 }
    requires rows { q ≤ 4 }
    ensures leaf { (prim : PrimValue) → slice_get frame.now.prims piece.now.prim ≡ Some prim → result ≡ leaf_of frame.now prim piece.now p q }
    ensures prim { slice_get frame.now.prims piece.now.prim ≡ Some result.prim }
{
    let prims = frame.prims.as_slice();
    Leaf {
        camera: &frame.camera,
        world: &frame.world,
        prim: &prims[piece.prim as usize],
        piece,
        p,
        q,
    }
}

/// The shaded grid of a piece of a primitive of a frame.
fn shaded_piece<'a>(
    shaders: &Shaders,
    cache: &mut TextureCache,
    work: &Bump,
    arena: &'a Bump,
    frame: &Frame,
    piece: &Piece,
    p: u8,
    q: u8,
) -> Result<GridRef<'a>, NoMemory>
    requires fits { Fits (set_in shaders.now) shaders.now.uses.now }
    requires cache { cache.old.textures ≡ shaders.now.textures.now }
    requires prim { piece.now.prim < length frame.now.prims }
    requires uses { All (HasUses shaders.now.uses.now) frame.now.prims }
    requires variables { (prim : PrimValue) → slice_get frame.now.prims piece.now.prim ≡ Some prim → FitsPrim (set_in shaders.now) shaders.now.uses.now prim }
    requires columns { p ≤ 4 }
    requires rows { q ≤ 4 }
    ensures grid { IfOk result (IsShadedIn (set_in shaders.now) shaders.now.uses.now frame.now piece.now p q) }
    ensures closing { IfOk result (ClosesIn frame.now piece.now p q) }
    ensures cache { cache.new.textures ≡ cache.old.textures }
{
    let leaf = leaf_at(frame, piece, p, q);
    shaded_leaf(shaders, cache, work, arena, &leaf)
}

/// The uses of a scene.
fn uses_of(scene: &Scene) -> &[ShaderUse]
    ensures { result.now ≡ scene.now.uses }
{
    scene.uses.as_slice()
}

/// A frame of a scene, whose primitives have uses of the scene.
fn frame_at(scene: &Scene, frame: usize) -> &Frame
    requires { frame < length scene.now.frames }
    ensures frame { slice_get scene.now.frames frame ≡ Some result.now }
    ensures uses { All (HasUses scene.now.uses) result.now.prims }
{
    let frames = scene.frames.as_slice();
    &frames[frame]
}

/// Makes an arena free for another grid, and keeps its memory. One that can't be made free is replaced.
fn clear(alloc: Global, work: &mut Bump) {
    if work.reset().is_err() {
        *work = Bump::new(alloc);
    }
}

/// The shaders of a scene, its textures, how many grids have been shaded, and memory for what is made on the way to a grid.
#[derive(Drop)]
pub struct Shop<'t> {
    alloc: Global,
    set: ShaderSet,
    cache: TextureCache<'t>,
    work: Bump,
    count: u64,
}

impl<'t> Shop<'t> {
    /// A shop of these shaders and textures that has shaded nothing, or want of memory.
    pub fn new(alloc: Global, set: ShaderSet, textures: &'t [Texture]) -> Result<Shop<'t>, NoMemory>
        ensures set { IfOk result (λ shop. shop.set ≡ set) }
        ensures textures { IfOk result (λ shop. shop.cache.textures ≡ textures.now) }
        ensures count { IfOk result (λ shop. shop.count ≡ 0) }
    {
        let cache = TextureCache::new(alloc, textures)?;
        Ok(Shop {
            alloc,
            set,
            cache,
            work: Bump::new(alloc),
            count: 0,
        })
    }

    /// How many grids have been shaded.
    pub fn count(&self) -> u64
        ensures { result ≡ self.now.count }
    {
        self.count
    }

    /// The shaded grid of a piece in the arena, which takes nothing else, of 2^`p` + 1 columns and 2^`q` + 1 rows: displacement, surface and
    /// volume over its points, one after another, the surface under the lights of the primitive. The shop's shaders are those of the scene,
    /// the frame and the piece's primitive are there and its variables fit its shaders, and `p` and `q` are at most 4. The count rises by
    /// one, unless memory is wanting.
    pub fn shade<'a>(
        &mut self,
        arena: &'a Bump,
        scene: &Scene,
        frame: usize,
        piece: &Piece,
        p: u8,
        q: u8,
    ) -> Result<GridRef<'a>, NoMemory>
        requires fits { Fits (shop_set self.old) scene.now.uses }
        requires frame { frame < length scene.now.frames }
        requires prim { (f : FrameValue) → slice_get scene.now.frames frame ≡ Some f → piece.now.prim < length f.prims }
        requires variables { FitsPiece (shop_set self.old) scene.now frame piece.now }
        requires columns { p ≤ 4 }
        requires rows { q ≤ 4 }
        requires count { self.old.count < 18446744073709551615 }
        ensures grid { IfOk result (IsShaded (shop_set self.old) scene.now frame piece.now p q) }
        ensures closing { IfOk result (Closes scene.now frame piece.now p q) }
        ensures set { self.new.set ≡ self.old.set }
        ensures textures { self.new.cache.textures ≡ self.old.cache.textures }
        ensures count { MatchResult result (λ _. self.new.count ≡ self.old.count + 1) (λ _. self.new.count ≡ self.old.count) }
    {
        let frame = frame_at(scene, frame);
        let shaders = Shaders {
            alloc: self.alloc,
            set: &self.set,
            textures: self.cache.textures(),
            uses: uses_of(scene),
        };
        let shaded = shaded_piece(
            &shaders,
            &mut self.cache,
            &self.work,
            arena,
            frame,
            piece,
            p,
            q,
        );
        clear(self.alloc, &mut self.work);
        let grid = shaded?;
        self.count += 1;
        Ok(grid)
    }
}

// The account of a pixel.
ghost use Rattle.std.specs.Prelude.{◌≡◌, ◌≤◌, ◌<◌, ◌^◌, ◌+◌, All, Some, IfOk, OnOk, length, map, slice_get};
ghost use Rattle.scene.specs.Scene.{FrameValue, IsPrim, HasUses};
ghost use Rattle.scene.specs.Settings.{AreOptions, crop_of};
ghost use Rattle.transforms.specs.Field.{IsView};
ghost use Rattle.shader_binding.specs.Sets.{Fits};
ghost use Rattle.shader_binding.specs.Bindings.{FitsPrim};
ghost use Rattle.displace_shade.specs.Shop.{shop_set};
ghost use Rattle.bound_split.specs.Extents.{pixels_of};
ghost use Rattle.buckets.specs.Pictures.{HasFrame};
ghost use Rattle.buckets.specs.Shopped.{shaded_by};
ghost use Rattle.pixel_account.specs.Account.{window, counting, IsFrameAccount, IsAccount, IsSample};
ghost use Rattle.pixel_account.specs.Stacks.{OfPixel, IsRect, IsShown};

use crate::accounts::samples_of;
use crate::leaves::{prims_of, put_frame};
use crate::shown::Shown;
use crate::sums::{mean_of, sums_of};
use crate::tones::tones_of;
use crate::window::{counting, window_of};
use displace_shade::Shop;
use filter_ppm::band_bytes;
use fixed_math::{List, NoMemory};
use pixel_record::{FrameAccount, PixelAccount, SampleAccount};
use scene::{Frame, Prim, Scene};
use std::alloc::Global;

/// The frame of a scene at a place.
fn frame_at(scene: &Scene, index: usize) -> &Frame
    requires { index < length scene.now.frames }
    ensures there { slice_get scene.now.frames index ≡ Some result.now }
    ensures uses { All (HasUses scene.now.uses) result.now.prims }
{
    let frames = scene.frames.as_slice();
    &frames[index]
}

/// Does nothing: a call tells a proof what holds of every primitive.
fn prims_known(prims: &[Prim])
    ensures { All IsPrim prims.now }
{
    for prim in prims {
        let _bound = prim.bound;
    }
}

/// Does nothing: a call tells a proof what holds of every frame.
fn recall(frame: &Frame)
    ensures view { IsView frame.now.camera }
    ensures options { AreOptions frame.now.options }
    ensures right { (crop_of frame.now.options).right ≤ frame.now.camera.width }
    ensures bottom { (crop_of frame.now.options).bottom ≤ frame.now.camera.height }
    ensures few { length frame.now.prims ≤ 65536 }
    ensures prims { All IsPrim frame.now.prims }
{
    let _view = frame.camera.view();
    frame.options.ranges_known();
    prims_known(prims_of(frame));
}

/// What is told of a frame.
fn frame_of(alloc: Global, number: usize, frame: &Frame) -> Result<FrameAccount, NoMemory>
    ensures { IfOk result (IsFrameAccount frame.now number) }
{
    let view = frame.camera.view();
    Ok(FrameAccount {
        number,
        file: frame.name.get().copied(alloc)?,
        width: view.width,
        height: view.height,
        options: frame.options,
    })
}

/// The accounts of the samples that count for the pixel `x`, `y` of a frame of a scene.
fn samples_for(
    alloc: Global,
    shown: &Shown<'_>,
    x: u32,
    y: u32,
    shop: &mut Shop,
) -> Result<List<SampleAccount>, NoMemory>
    ghost of: { OfPixel }
    requires shown { IsShown of.accepted shown.now }
    requires set { shop_set shop.old ≡ of.accepted.set }
    requires options { AreOptions shown.now.frame.now.options }
    requires window { pixels_of shown.now.rect ≡ window shown.now.frame.now x y }
    requires rect { IsRect (pixels_of shown.now.rect) }
    requires x { x ≡ of.x }
    requires y { y ≡ of.y }
    requires x_most { x < 4096 }
    requires y_most { y < 4096 }
    requires count { shop.old.count ≤ 2 ^ 62 }
    ensures counting { IfOk result (λ l. map (λ s. s.sample) l ≡ counting shown.now.frame.now x y) }
    ensures each { IfOk result (λ l. All (IsSample of.accepted shown.now.frame.now x y) l) }
    ensures set { shop.new.set ≡ shop.old.set }
    ensures textures { shop.new.cache.textures ≡ shop.old.cache.textures }
    ensures count { OnOk result (shop.new.count ≤ shop.old.count + 4294967296) }
{
    let frame = shown.frame;
    let scene = shown.scene;
    let mut counted = counting(alloc, &frame.options, shown.rect, x, y)?;
    let stacks = counted.as_mut_slice();
    put_frame(alloc, shown, shop, stacks)?;
    let samples = samples_of(alloc, frame, scene.uses.as_slice(), stacks)?;
    Ok(samples)
}

/// The account of the pixel `x`, `y` of a frame of a scene, shaded by the shop's set: all that made it, by the definitions of the
/// picture. All leaves of the frame are looked at that can show at a sample which counts for the pixel, and nothing is kept of them but
/// what shows there.
///
/// The frame is there, the pixel lies in its picture, the set fits the scene, and the shop's count is at most 2^62. It is refused where
/// memory is wanting, and for nothing else.
pub fn explain(
    alloc: Global,
    scene: &Scene,
    frame: usize,
    x: u32,
    y: u32,
    shop: &mut Shop,
) -> Result<PixelAccount, NoMemory>
    requires frame { frame < length scene.now.frames }
    requires fits { Fits (shop_set shop.old) scene.now.uses }
    requires variables { (f : FrameValue) → HasFrame scene.now frame f → All (FitsPrim (shop_set shop.old) scene.now.uses) f.prims }
    requires column { (f : FrameValue) → HasFrame scene.now frame f → x < (crop_of f.options).right }
    requires row { (f : FrameValue) → HasFrame scene.now frame f → y < (crop_of f.options).bottom }
    requires count { shop.old.count ≤ 2 ^ 62 }
    ensures account { IfOk result (λ account. (f : FrameValue) → HasFrame scene.now frame f → IsAccount (shaded_by scene.now shop.old) f frame x y account) }
    ensures set { shop.new.set ≡ shop.old.set }
    ensures textures { shop.new.cache.textures ≡ shop.old.cache.textures }
    ensures count { OnOk result (shop.new.count ≤ 2 ^ 63) }
{
    let number = frame;
    let frame = frame_at(scene, number);
    recall(frame);
    let shown = Shown {
        scene,
        index: number,
        frame,
        rect: window_of(frame, x, y),
    };
    let samples = samples_for(alloc, &shown, x, y, shop)?;
    let sums = sums_of(samples.as_slice());
    let tones = tones_of(&frame.options, mean_of(&sums, samples.len()));
    let bytes = band_bytes(alloc, &frame.options, &[tones.levels])?;
    Ok(PixelAccount {
        frame: frame_of(alloc, number, frame)?,
        x,
        y,
        samples,
        sums,
        tones,
        bytes: List(bytes),
    })
}

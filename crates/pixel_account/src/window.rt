// The samples that count for a pixel.
ghost use Rattle.std.specs.Prelude.{◌≡◌, ◌≤◌, ◌<◌, ◌+◌, ◌*◌, ℤ, pos, ◌*ℤ◌, ◌-ℤ◌, [], All, IfOk, map, unsigned_abs};
ghost use Rattle.fixed_math.specs.Spots.{pixel_count};
ghost use Rattle.scene.specs.Settings.{AreOptions};
ghost use Rattle.bound_split.specs.Extents.{pixels_of};
ghost use Rattle.hider.specs.Samples.{sample_in};
ghost use Rattle.filter_ppm.specs.Weight.{weight_at};
ghost use Rattle.pixel_account.specs.Account.{window, counting_in};
ghost use Rattle.pixel_account.specs.Stacks.{IsRect, IsEmptyFor, IsSampleOf};

use crate::stacks::Stack;
use crate::traces::Traces;
use filter_ppm::{reach, weight};
use fixed_math::{NoMemory, Num};
use hider::{Sample, sample_at};
use scene::{Frame, Options};
use std::alloc::Global;

/// The pixels with a sample that may count for the pixel `x`, `y`: their left, top, right and bottom.
pub(crate) fn window_of(frame: &Frame, x: u32, y: u32) -> [u32; 4]
    requires x { x < frame.now.camera.width }
    requires y { y < frame.now.camera.height }
    ensures value { pixels_of result ≡ window frame.now x y }
    ensures rect { IsRect (pixels_of result) }
{
    let view = frame.camera.view();
    let options = &frame.options;
    let across = reach(options.wx);
    let down = reach(options.wy);
    [
        x.saturating_sub(across),
        y.saturating_sub(down),
        (x + 1 + across).min(view.width),
        (y + 1 + down).min(view.height),
    ]
}

/// The number of samples of a pixel.
fn samples_each(options: &Options) -> usize
    ensures value { result ≡ options.now.xs * options.now.ys }
    ensures some { 1 ≤ result }
    ensures most { result ≤ 256 }
{
    options.xs as usize * options.ys as usize
}

/// The number of samples of a rectangle of pixels.
fn count_in(options: &Options, rect: [u32; 4]) -> usize
    requires { IsRect (pixels_of rect) }
    ensures value { result ≡ pixel_count (pixels_of rect) * (options.now.xs * options.now.ys) }
{
    let [left, top, right, bottom] = rect;
    let pixels = (right - left) as usize * (bottom - top) as usize;
    pixels * samples_each(options)
}

/// Sample `n` of a rectangle of pixels.
#[tactic(auto, unfolding(hider::specs::Samples::sample_in))]
fn sample_of(options: &Options, rect: [u32; 4], n: usize) -> Sample
    requires rect { IsRect (pixels_of rect) }
    requires inside { n < pixel_count (pixels_of rect) * (options.now.xs * options.now.ys) }
    ensures { result ≡ sample_in options.now.xs options.now.ys (pixels_of rect) n }
{
    let [left, top, right, _] = rect;
    let each = samples_each(options);
    let width = (right - left) as usize;
    let pixel = n / each;
    let x = left + (pixel % width) as u32;
    let y = top + (pixel / width) as u32;
    sample_at(
        x,
        y,
        (n % each) as u32,
        options.xs as u32,
        options.ys as u32,
    )
}

/// A place less the middle of a pixel, in 1/256 pixel.
fn from_middle(place: i64, pixel: u32) -> i64
    requires place { unsigned_abs place ≤ 268435456 }
    requires pixel { pixel < 4096 }
    ensures { result ≡ place -ℤ pos (256 * pixel + 128) }
{
    place - (256 * pixel as i64 + 128)
}

/// How much a sample counts for the pixel `x`, `y`.
#[tactic(auto, unfolding(filter_ppm::specs::Weight::weight_at))]
fn weight_of(options: &Options, x: u32, y: u32, sample: &Sample) -> Num
    requires x { x < 4096 }
    requires y { y < 4096 }
    ensures { result ≡ weight_at options.now x y sample.now.place }
{
    weight(
        options,
        from_middle(sample.place.x(), x),
        from_middle(sample.place.y(), y),
    )
}

/// The samples of a rectangle of pixels that count for the pixel `x`, `y`; nothing shows at them yet.
pub(crate) fn counting(
    alloc: Global,
    options: &Options,
    rect: [u32; 4],
    x: u32,
    y: u32,
) -> Result<Vec<Stack>, NoMemory>
    requires rect { IsRect (pixels_of rect) }
    requires x { x < 4096 }
    requires y { y < 4096 }
    ensures samples { IfOk result (λ k. map (λ s. s.sample) k.items ≡ counting_in options.now (pixels_of rect) x y) }
    ensures empty { IfOk result (λ k. All (IsEmptyFor options.now x y) k.items) }
    ensures inside { IfOk result (λ k. All (λ s. IsSampleOf options.now.xs options.now.ys (pixels_of rect) s.sample) k.items) }
{
    let mut stacks = Vec::new(alloc);
    for n in 0..count_in(options, rect) {
        let sample = sample_of(options, rect, n);
        let weight = weight_of(options, x, y, &sample);
        if weight.raw() != 0 {
            stacks.push(Stack {
                sample,
                weight,
                traces: Traces::new(alloc),
            })?;
        }
    }
    Ok(stacks)
}

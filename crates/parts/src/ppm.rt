// The picture that buckets make.
ghost use Rattle.std.specs.Prelude.{◌≡◌, ◌≤◌, ◌<◌, ◌+◌, ◌*◌, ◌++◌, ℕ, List, length, OnOk, IfOk};
ghost use Rattle.parts.specs.Formats.{IsHeader, bucket_total};
ghost use Rattle.parts.specs.Pictures.{ppm_header, picture, run};
ghost use Rattle.parts.specs.Placing.{AreWhole, width_at, pixel_of};

use crate::header::{Header, pixels_at};
use crate::placing::Placed;
use fixed_math::NoMemory;
use std::alloc::Global;

/// The header of a picture in the format PPM (P6).
#[tactic(auto, unfolding(crate::specs::Pictures::ppm_header))]
fn ppm_header(alloc: Global, header: &Header) -> Result<Vec<u8>, NoMemory>
    ensures { IfOk result (λ bytes. bytes.items ≡ ppm_header header.now) }
{
    let width = header.width;
    let height = header.height;
    let one = header.one;
    Ok(format!(in alloc; "P6\n{width} {height}\n{one}\n")?.into_bytes())
}

/// Appends the pixels of row `y` that the bucket in a column has.
fn append_run(
    bytes: &mut Vec<u8>,
    header: &Header,
    buckets: &[Placed],
    y: usize,
    column: usize,
) -> Result<(), NoMemory>
    requires header { IsHeader header.now }
    requires whole { AreWhole header.now buckets.now }
    requires row { y < header.now.height }
    requires column { header.now.side * column < header.now.width }
    ensures { OnOk result (bytes.new.items ≡ bytes.old.items ++ run (width_at header.now column) (λ i. pixel_of header.now buckets.now (header.now.side * column + i) y)) }
{
    let side = header.side as usize;
    let number = y / side * header.columns() + column;
    let width = pixels_at(header.side, header.width, column);
    let size = 3 * header.channel_bytes();
    let start = size * (y % side * width);
    let pixels = buckets[number].bucket().pixels();
    let row = &pixels[start..start + size * width];
    bytes.extend_from_slice(row)?;
    Ok(())
}

/// Appends the pixels of row `y`.
fn append_row(
    bytes: &mut Vec<u8>,
    header: &Header,
    buckets: &[Placed],
    y: usize,
) -> Result<(), NoMemory>
    requires header { IsHeader header.now }
    requires whole { AreWhole header.now buckets.now }
    requires row { y < header.now.height }
    ensures { OnOk result (bytes.new.items ≡ bytes.old.items ++ run header.now.width (λ x. pixel_of header.now buckets.now x y)) }
{
    for column in 0..header.columns() {
        append_run(bytes, header, buckets, y, column)?;
    }
    Ok(())
}

/// The picture in which each bucket has its pixels: the buckets stand by their numbers.
pub(crate) fn picture(
    alloc: Global,
    header: &Header,
    buckets: &[Placed],
) -> Result<Vec<u8>, NoMemory>
    requires header { IsHeader header.now }
    requires whole { AreWhole header.now buckets.now }
    ensures { IfOk result (λ bytes. bytes.items ≡ picture header.now (pixel_of header.now buckets.now)) }
{
    let mut bytes = ppm_header(alloc, header)?;
    for y in 0..header.height as usize {
        append_row(&mut bytes, header, buckets, y)?;
    }
    Ok(bytes)
}

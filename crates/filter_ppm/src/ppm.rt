// The bytes of a picture in the format PPM.
ghost use Rattle.std.specs.Prelude.{◌≡◌, ◌≤◌, ◌++◌, All, OnOk, IfOk};
ghost use Rattle.filter_ppm.specs.Levels.{header, level_bytes, pixel_bytes, band};

use fixed_math::NoMemory;
use scene::Options;
use std::alloc::Global;

/// The header of a picture of that width and height in the format PPM (P6): `P6`, the width and the height, and `one`.
#[tactic(auto, unfolding(crate::specs::Levels::header))]
pub fn header(alloc: Global, width: u32, height: u32, o: &Options) -> Result<Vec<u8>, NoMemory>
    ensures { IfOk result (λ bytes. bytes.items ≡ header width height o.now) }
{
    let one = o.one;
    Ok(format!(in alloc; "P6\n{width} {height}\n{one}\n")?.into_bytes())
}

/// Appends a number of a channel, where the greatest is `one`.
#[tactic(auto, unfolding(crate::specs::Levels::level_bytes))]
fn push_level(bytes: &mut Vec<u8>, one: u32, level: u32) -> Result<(), NoMemory>
    requires one { one ≤ 65535 }
    requires level { level ≤ one }
    ensures { OnOk result (bytes.new.items ≡ bytes.old.items ++ level_bytes one level) }
{
    if one > 255 {
        bytes.push((level / 256) as u8)?;
    }
    bytes.push((level % 256) as u8)?;
    Ok(())
}

/// Appends the numbers of a pixel.
fn push_levels(bytes: &mut Vec<u8>, one: u32, levels: &[u32]) -> Result<(), NoMemory>
    requires one { one ≤ 65535 }
    requires levels { All (λ v. v ≤ one) levels.now }
    ensures { OnOk result (bytes.new.items ≡ bytes.old.items ++ pixel_bytes one levels.now) }
{
    for level in levels {
        push_level(bytes, one, *level)?;
    }
    Ok(())
}

/// Appends the bytes of a row of pixels to those that stand there: for each channel in turn one byte, or two where the options' `one`
/// is above 255, the high byte first. So one buffer serves for all bands of a picture.
pub fn append_band(bytes: &mut Vec<u8>, o: &Options, pixels: &[[u32; 3]]) -> Result<(), NoMemory>
    requires { All (λ p. All (λ v. v ≤ o.now.one) p) pixels.now }
    ensures { OnOk result (bytes.new.items ≡ bytes.old.items ++ band o.now.one pixels.now) }
{
    for pixel in pixels {
        push_levels(bytes, o.one, pixel)?;
    }
    Ok(())
}

/// The bytes of a row of pixels: for each channel in turn one byte, or two where the options' `one` is above 255, the high byte first.
pub fn band_bytes(alloc: Global, o: &Options, pixels: &[[u32; 3]]) -> Result<Vec<u8>, NoMemory>
    requires { All (λ p. All (λ v. v ≤ o.now.one) p) pixels.now }
    ensures { IfOk result (λ bytes. bytes.items ≡ band o.now.one pixels.now) }
{
    let of_pixel = if o.one > 255 { 6 } else { 3 };
    let mut bytes = Vec::with_capacity(alloc, pixels.len().saturating_mul(of_pixel))?;
    append_band(&mut bytes, o, pixels)?;
    Ok(bytes)
}

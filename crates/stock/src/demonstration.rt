// The text of the demonstration scene.
ghost use Rattle.std.specs.Prelude.{◌≡◌, ◌≤◌, ◌<◌, ◌++◌, IfOk, OnOk, length, string_bytes};
ghost use Rattle.stock.specs.Demo as spec;

use fixed_math::{NoMemory, hash32};
use std::alloc::Global;

// Drawn number `which` of patch `patch`, below `below`.
fn drawn(patch: u32, which: u32, below: u32) -> u32
    requires { 0 < below }
    ensures drawn { result ≡ spec.drawn patch which below }
    ensures small { result < below }
{
    hash32(&[patch, which]) % below
}

fn sign_of(tenths: i32) -> &'static str
    ensures { result.now ≡ spec.sign_of tenths }
{
    if tenths < 0 { "-" } else { "" }
}

// A number of tenths, written with one digit behind the point.
#[tactic(auto, unfolding(crate::specs::Demo::tenths))]
fn tenths(alloc: Global, number: i32) -> Result<String, NoMemory>
    ensures { IfOk result (λ t. string_bytes t ≡ spec.tenths number) }
{
    let sign = sign_of(number);
    let size = number.unsigned_abs();
    let (whole, digit) = (size / 10, size % 10);
    Ok(format!(in alloc; "{sign}{whole}.{digit}")?)
}

// The line of a patch's colour, whose parts are tenths below 1.
fn colour_line(alloc: Global, patch: u32) -> Result<String, NoMemory>
    ensures { IfOk result (λ t. string_bytes t ≡ spec.colour_line patch) }
{
    let red = drawn(patch, 0, 10);
    let green = drawn(patch, 1, 10);
    let blue = drawn(patch, 2, 10);
    Ok(format!(in alloc; "Color [0.{red} 0.{green} 0.{blue}]\n")?)
}

// The coordinates of a point of a patch, in tenths: `point` is 4j + i for point i of row j.
fn x_at(patch: u32, point: u32) -> i32
    requires { point < 16 }
    ensures { result ≡ spec.x_at patch point }
{
    (drawn(patch, 100, 60) + 4 * (point % 4)) as i32 - 30
}

fn y_at(patch: u32, point: u32) -> i32
    requires { point < 16 }
    ensures { result ≡ spec.y_at patch point }
{
    (drawn(patch, 101, 40) + 4 * (point / 4)) as i32 - 20
}

fn z_at(patch: u32, point: u32) -> i32
    requires { point < 16 }
    ensures { result ≡ spec.z_at patch point }
{
    (drawn(patch, 102, 40) + drawn(patch, 200 + point, 8)) as i32
}

// The numbers of a point.
fn point_text(alloc: Global, patch: u32, point: u32) -> Result<String, NoMemory>
    requires { point < 16 }
    ensures { IfOk result (λ t. string_bytes t ≡ spec.point_text patch point) }
{
    let x = tenths(alloc, x_at(patch, point))?;
    let y = tenths(alloc, y_at(patch, point))?;
    let z = tenths(alloc, z_at(patch, point))?;
    Ok(format!(in alloc; "{x} {y} {z}")?)
}

// Appends the numbers of a point behind the first, and a space before them.
fn push_point(alloc: Global, text: &mut Vec<u8>, patch: u32, point: u32) -> Result<(), NoMemory>
    requires { point < 16 }
    ensures { OnOk result (text.new.items ≡ text.old.items ++ spec.next_point patch point) }
{
    let numbers = point_text(alloc, patch, point)?;
    text.extend_from_slice(b" ")?;
    text.extend_from_slice(numbers.as_bytes())?;
    Ok(())
}

// Appends the numbers of all points of a patch.
fn push_points(alloc: Global, text: &mut Vec<u8>, patch: u32) -> Result<(), NoMemory>
    ensures { OnOk result (text.new.items ≡ text.old.items ++ spec.points_text patch) }
{
    let first = point_text(alloc, patch, 0)?;
    text.extend_from_slice(first.as_bytes())?;
    for point in 1..16 {
        push_point(alloc, text, patch, point)?;
    }
    Ok(())
}

// Appends the line of a patch.
fn push_patch(alloc: Global, text: &mut Vec<u8>, patch: u32) -> Result<(), NoMemory>
    ensures { OnOk result (text.new.items ≡ text.old.items ++ spec.patch_line patch) }
{
    text.extend_from_slice(b"Patch \"bicubic\" \"P\" [")?;
    push_points(alloc, text, patch)?;
    text.extend_from_slice(b"]\n")?;
    Ok(())
}

// Appends the lines of a patch: its colour and its points.
fn push_lines(alloc: Global, text: &mut Vec<u8>, patch: u32) -> Result<(), NoMemory>
    ensures { OnOk result (text.new.items ≡ text.old.items ++ spec.patch_lines patch) }
{
    let colour = colour_line(alloc, patch)?;
    text.extend_from_slice(colour.as_bytes())?;
    push_patch(alloc, text, patch)
}

// The lines before the patches: the picture, the camera, two lights and the surface.
fn first_lines() -> &'static str
    ensures { result.now ≡ spec.first_lines }
{
    "Display \"demo.ppm\" \"file\" \"rgb\"\nFormat 160 120 1\nProjection \"perspective\" \"fov\" [45]\nTranslate 0 0 8\nWorldBegin\nLightSource \"ambientlight\" 1 \"intensity\" [0.2]\nLightSource \"distantlight\" 2 \"from\" [1 1 -1] \"to\" [0 0 0]\nSurface \"plastic\"\n"
}

/// The text of the demonstration scene with so many bicubic patches, 1 to 1,000: its picture is `demo.ppm`, of 160 by 120 pixels.
/// It is no longer than a scene's text may be.
#[tactic(auto, using(crate::proofs::Short::short_demo))]
pub fn demo(alloc: Global, count: u32) -> Result<Vec<u8>, NoMemory>
    requires some { 1 ≤ count }
    requires few { count ≤ 1000 }
    ensures text { IfOk result (λ t. t.items ≡ spec.demo count) }
    ensures short { IfOk result (λ t. length t.items ≤ 16777216) }
{
    let mut text = Vec::new(alloc);
    text.extend_from_slice(first_lines().as_bytes())?;
    for patch in 0..count {
        push_lines(alloc, &mut text, patch)?;
    }
    text.extend_from_slice(b"WorldEnd\n")?;
    Ok(text)
}

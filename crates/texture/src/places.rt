// Squares cut to an image.
ghost use Rattle.std.specs.Prelude.{◌≡◌, ◌≤◌};
ghost use Rattle.texture.specs.Pyramid.{inside as inside_of};

/// The columns or rows of the square of side `m` at place `x` that a side of the texture has.
pub(crate) fn inside(side: u32, m: u32, x: u32) -> u32
    requires small_m { m ≤ 2048 }
    requires small_x { x ≤ 2048 }
    ensures value { result ≡ inside_of side m x }
    ensures bound { result ≤ m }
{
    side.saturating_sub(x * m).min(m)
}

// Sums over lights at the places of a grid.
ghost use Rattle.std.specs.Prelude.{◌≡◌};
ghost use Rattle.light_rows.specs.Seen.{counts_in};

use number_rows::{Plane, Planes};

/// What a sum over lights is of, with its arguments at each place; arguments that don't fit sum nothing.
#[derive(Clone, Copy)]
pub enum Sum<'a> {
    Ambient,
    Diffuse(Planes<'a>),
    Specular(Planes<'a>, Planes<'a>, Plane<'a>),
    Nothing,
}

impl Sum<'_> {
    /// Whether a light adds to it, by whether the light is ambient.
    pub fn counts(&self, ambient: bool) -> bool
        ensures { result ≡ counts_in self.now ambient }
    {
        match self {
            Sum::Ambient => ambient,
            Sum::Diffuse(_) | Sum::Specular(_, _, _) => !ambient,
            Sum::Nothing => false,
        }
    }
}

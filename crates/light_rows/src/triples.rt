// Rows of triples.
ghost use Rattle.std.specs.Prelude.{◌≡◌, length};

use bumpalo::Bump;
use number_rows::Raw;

/// A triple for each place of a grid: a row of each of its parts.
#[derive(Drop)]
pub struct Triples<'a> {
    pub x: Vec<Raw, &'a Bump>,
    pub y: Vec<Raw, &'a Bump>,
    pub z: Vec<Raw, &'a Bump>,
    pub ghost y_long: { length y.items ≡ length x.items },
    pub ghost z_long: { length z.items ≡ length x.items },
}

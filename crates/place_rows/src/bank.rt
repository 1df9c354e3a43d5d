// Rows of values in an arena.
ghost use Rattle.std.specs.Prelude.{◌≡◌, length};

use bumpalo::Bump;
use number_rows::Raw;

/// Rows of values: the numbers, the triples in rows of each of their parts, and the texts, each by themselves.
#[derive(Drop)]
pub struct Bank<'a> {
    pub numbers: Vec<Raw, &'a Bump>,
    pub xs: Vec<Raw, &'a Bump>,
    pub ys: Vec<Raw, &'a Bump>,
    pub zs: Vec<Raw, &'a Bump>,
    pub words: Vec<usize, &'a Bump>,
    pub ghost ys_long: { length ys.items ≡ length xs.items },
    pub ghost zs_long: { length zs.items ≡ length xs.items },
}

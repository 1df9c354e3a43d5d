// Tiles at which nothing shows but black.
ghost use Rattle.std.specs.Prelude.{ℕ, ◌≡◌, ◌<◌, IsTrue, List};
ghost use Rattle.fixed_math.specs.Axes.{origin};
ghost use Rattle.hider.specs.declared.fragment.Fragment.{Fragment};
ghost use Rattle.hider.specs.declared.sample.Sample.{Sample};
ghost use Rattle.hider.specs.Composite.{composite};
ghost use Rattle.hider.specs.Tiles.{Shows, IsSampleGrid, sample_count, sample_of};

use fixed_math::Vec3;
use hider::Tile;

/// Whether a colour is black.
fn is_black(colour: &Vec3) -> bool
    ensures { IsTrue result → colour.now ≡ origin }
{
    if colour.x.raw() != 0 {
        return false;
    }
    if colour.y.raw() != 0 {
        return false;
    }
    colour.z.raw() == 0
}

/// Whether all samples of a tile are black, as they are where nothing shows.
pub(crate) fn all_black(tile: &Tile) -> bool
    requires { IsSampleGrid tile.now.grid }
    ensures { IsTrue result → (f : Sample → List Fragment) → Shows tile.now f → (n : ℕ) → n < sample_count tile.now.grid → composite (f (sample_of tile.now.grid n)) ≡ origin }
{
    for n in 0..tile.samples() {
        if !is_black(&tile.colour(n)) {
            return false;
        }
    }
    true
}

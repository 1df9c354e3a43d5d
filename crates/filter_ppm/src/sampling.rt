// The samples of a tile.
ghost use Rattle.std.specs.Prelude.{◌≡◌, ◌<◌, List};
ghost use Rattle.hider.specs.declared.fragment.Fragment.{Fragment};
ghost use Rattle.hider.specs.declared.sample.Sample.{Sample};
ghost use Rattle.hider.specs.Composite.{composite};
ghost use Rattle.hider.specs.Tiles.{Shows, IsSampleGrid, sample_count, sample_of};
ghost use Rattle.filter_ppm.specs.Sampled.{shown_with};

use crate::shown::ShownSample;
use hider::{Spot, Tile};

/// Sample `n` of the tile.
pub(crate) fn sample_at(tile: &Tile, n: usize) -> ShownSample
    requires grid { IsSampleGrid tile.now.grid }
    requires inside { n < sample_count tile.now.grid }
    ensures { (f : Sample → List Fragment) → Shows tile.now f → result ≡ shown_with (λ s. composite (f s)) (sample_of tile.now.grid n) }
{
    let place = tile.at(n);
    ShownSample {
        place: Spot::new(place[0], place[1]),
        colour: tile.colour(n),
    }
}

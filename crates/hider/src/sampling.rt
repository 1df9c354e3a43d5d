// The sample of a cell of a pixel.
ghost use Rattle.std.specs.Prelude.{◌≡◌, ◌≤◌, ◌<◌, ◌*◌, [], ◌∷◌};
ghost use Rattle.fixed_math.specs.Hash.{hash32};
ghost use Rattle.hider.specs.Samples.{sample_at};

use crate::sample::Sample;
use crate::spot::Spot;
use sample_pattern::{position, position_in, time};

/// The sample of the cell `cell` of the pixel `x`, `y`, which has `xs` by `ys` cells, by rows.
#[tactic(auto, unfolding(crate::specs::Samples::sample_at))]
pub fn sample_at(x: u32, y: u32, cell: u32, xs: u32, ys: u32) -> Sample
    requires x { x < 4096 }
    requires y { y < 4096 }
    requires xs { xs ≤ 16 }
    requires ys { ys ≤ 16 }
    requires cell { cell < xs * ys }
    ensures { result ≡ sample_at xs ys x y cell }
{
    let place = position(x, y, cell, xs, ys);
    Sample {
        place: Spot::new(place[0], place[1]),
        time: time(x, y, cell),
    }
}

/// The place of the sample of a cell of a pixel whose hash is known.
#[tactic(auto, unfolding(crate::specs::Samples::sample_at))]
pub(crate) fn place_at(hash: u32, x: u32, y: u32, cell: u32, xs: u32, ys: u32) -> Spot
    requires hash { hash ≡ hash32 (x ∷ y ∷ []) }
    requires x { x < 4096 }
    requires y { y < 4096 }
    requires xs { xs ≤ 16 }
    requires ys { ys ≤ 16 }
    requires cell { cell < xs * ys }
    ensures { result ≡ (sample_at xs ys x y cell).place }
{
    let place = position_in(hash, x, y, cell, xs, ys);
    Spot::new(place[0], place[1])
}

// Where a piece can show, and what becomes of it.
ghost use Rattle.std.specs.Prelude.{◌≡◌, pos, ◌≤ℤ◌};
ghost use Rattle.patches.specs.Parts.{rect_of};
ghost use Rattle.bound_split.specs.Decisions.{decision_of, FitsPart};
ghost use Rattle.bound_split.specs.Extents.{extent_of};

use crate::deciding::decide;
use crate::extents::{Extent, extent_of};
use crate::splits::Decision;
use fixed_math::Num;
use patches::{Piece, Surface};
use transforms::Camera;

/// What a walk asks of a piece: where it can show, and whether it is split or diced. It is the same for all tiles.
#[derive(Debug, Clone, Copy, PartialEq, Eq)]
pub struct Sight {
    pub extent: Extent,
    pub decision: Decision,
}

/// The extent and the decision of a piece of a surface, as `extent_of` and `decide` have them. `rate` is the shading rate in square
/// pixels; `bound` is how far displacement may move the piece's points in camera space, raw 0 to 2^29.
pub fn sight_of<S: Surface>(s: &S, piece: &Piece, camera: &Camera, rate: Num, bound: Num) -> Sight
    requires low { pos 0 ≤ℤ bound }
    requires high { bound ≤ℤ pos 536870912 }
    ensures extent { result.extent ≡ extent_of camera.now bound (S.box_in s.now (rect_of piece.now)) }
    ensures decision { result.decision ≡ decision_of camera.now rate bound (S.width_of s.now) (S.net_of s.now) piece.now }
    ensures fits { FitsPart result.decision piece.now }
{
    Sight {
        extent: extent_of(s, piece, camera, bound),
        decision: decide(s, piece, camera, rate, bound),
    }
}

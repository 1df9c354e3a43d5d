// What becomes of a piece, and its halves.
ghost use Rattle.std.specs.Prelude.{◌≡◌, ◌<◌, MatchBool, [], ◌∷◌, if◌then◌else◌};
ghost use Rattle.patches.specs.Parts.{low_u, high_u, low_v, high_v};

use patches::Piece;

/// What becomes of a piece of a patch.
#[derive(Debug, Clone, Copy, PartialEq, Eq)]
pub enum Decision {
    /// It is halved along u.
    SplitU,
    /// It is halved along v.
    SplitV,
    /// It becomes a grid of 2^`p` cells along u and 2^`q` cells along v.
    Dice { p: u8, q: u8 },
}

/// The two halves of a piece along u or along v, the lower parameters first.
///
/// The piece is halved less than 8 times in that direction.
pub fn halves(piece: &Piece, along_u: bool) -> [Piece; 2]
    requires { MatchBool along_u (piece.now.a < 8) (piece.now.b < 8) }
    ensures { result ≡ (if along_u then low_u piece.now ∷ high_u piece.now ∷ [] else low_v piece.now ∷ high_v piece.now ∷ []) }
{
    let low = *piece;
    if along_u {
        let (a, i) = (piece.a + 1, 2 * piece.i);
        [Piece { a, i, ..low }, Piece { a, i: i + 1, ..low }]
    } else {
        let (b, j) = (piece.b + 1, 2 * piece.j);
        [Piece { b, j, ..low }, Piece { b, j: j + 1, ..low }]
    }
}

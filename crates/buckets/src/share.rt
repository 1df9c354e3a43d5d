// Which buckets of a frame are drawn.
ghost use Rattle.std.specs.Prelude.{◌≡◌, ◌+◌, true, length};
ghost use Rattle.buckets.specs.Shares.{first_in, numbers_in, step_in};
ghost use Rattle.buckets.specs.TileWalk.{tile_count, draws};
ghost use Rattle.buckets.specs.Standing.{Begun, IsDrawn, IsFirstDrawn, IsTile};

use crate::shown::Shown;

/// Which buckets of a frame are drawn, and how their pixels go to the sink.
#[derive(Clone, Copy)]
pub(crate) enum Share {
    /// All of them, by rows of buckets: a picture.
    Whole,
    /// Those whose number modulo `parts` is `part`, each by itself behind its number.
    Nth { part: u32, parts: u32 },
}

impl Share {
    // The least number of a bucket.
    fn first(self) -> usize
        ensures { result ≡ first_in self }
    {
        match self {
            Share::Whole => 0,
            Share::Nth { part, .. } => part as usize,
        }
    }

    // How far behind a bucket the next one is.
    fn step(self) -> usize
        ensures { result ≡ step_in self }
    {
        match self {
            Share::Whole => 1,
            Share::Nth { parts, .. } => parts as usize,
        }
    }
}

/// The number of the first tile that is drawn; behind the last tile where none is.
pub(crate) fn first_tile(shown: &Shown<'_>) -> usize
    ghost begun: { Begun }
    requires { IsDrawn begun shown.now }
    ensures { IsFirstDrawn begun.drawing 0 result }
{
    shown.share.first().min(shown.tiles)
}

/// The number of the next tile that is drawn behind tile `at`, which is; behind the last tile where none is.
pub(crate) fn tile_behind(shown: &Shown<'_>, at: usize) -> usize
    ghost begun: { Begun }
    requires tile { IsTile begun shown.now at }
    requires here { draws begun.drawing at ≡ true }
    ensures { IsFirstDrawn begun.drawing (at + 1) result }
{
    (at + shown.share.step()).min(shown.tiles)
}

/// How many tiles are drawn.
pub(crate) fn drawn_count(shown: &Shown<'_>) -> u32
    ghost begun: { Begun }
    requires { IsDrawn begun shown.now }
    ensures { result ≡ length (numbers_in begun.drawing.share (tile_count begun.drawing)) }
{
    let mut count = 0;
    let mut at = first_tile(shown);
    while at < shown.tiles {
        count += 1;
        at = tile_behind(shown, at);
    }
    count
}

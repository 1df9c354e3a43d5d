// What a request does to a transformation, and at which times.
ghost use Rattle.std.specs.Prelude.{◌≡◌};
ghost use Rattle.moving_maps.specs.MapPairs.{changed, is_first as in_first, is_last as in_last, map_behind as map_of, times_behind as times_of};

use crate::times::Times;
use fixed_math::Num;
use transforms::{Affine, FormFault};

/// What a request does to a transformation.
#[derive(Clone, Copy)]
pub enum Change {
    /// A map goes before it, as with Translate, Rotate, Scale and ConcatTransform.
    Before(Affine),
    /// A map stands in its place, as with Transform and Identity.
    Instead(Affine),
}

/// Of which times a request is.
#[derive(Debug, Clone, Copy, PartialEq, Eq)]
pub enum When {
    /// Of all: it stands outside of motion blocks.
    Always,
    /// Of the first time of its motion block.
    First { from: Num, to: Num },
    /// Of the last time of its motion block.
    Last { from: Num, to: Num },
}

impl Change {
    /// A map behind the change.
    fn on(&self, map: &Affine) -> Result<Affine, FormFault>
        ensures { result ≡ changed self.now map.now }
    {
        match self {
            Change::Before(first) => map.before(first),
            Change::Instead(other) => Ok(*other),
        }
    }

    /// A map behind the change, where it takes place.
    pub(crate) fn on_if(&self, takes_place: bool, map: &Affine) -> Result<Affine, FormFault>
        ensures { result ≡ map_of takes_place self.now map.now }
    {
        if takes_place { self.on(map) } else { Ok(*map) }
    }
}

impl When {
    /// Whether a request is one of the first time.
    pub(crate) fn is_first(&self) -> bool
        ensures { result ≡ in_first self.now }
    {
        match self {
            When::Always | When::First { .. } => true,
            When::Last { .. } => false,
        }
    }

    /// Whether a request is one of the last time.
    pub(crate) fn is_last(&self) -> bool
        ensures { result ≡ in_last self.now }
    {
        match self {
            When::Always | When::Last { .. } => true,
            When::First { .. } => false,
        }
    }

    /// The times in force behind a change.
    pub(crate) fn times_behind(&self, change: &Change, times: Times) -> Times
        ensures { result ≡ times_of self.now change.now times }
    {
        match (self, change) {
            (When::Always, Change::Before(_)) => times,
            (When::Always, Change::Instead(_)) => Times::Still,
            (When::First { from, to } | When::Last { from, to }, _) => {
                times.joined(Times::Between {
                    from: *from,
                    to: *to,
                })
            }
        }
    }
}

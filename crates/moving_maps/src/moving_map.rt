// A transformation that moves.
ghost use Rattle.std.specs.Prelude.{◌≡◌};
ghost use Rattle.moving_maps.specs.declared.times.Times.TheVariants.{Still as stays};
ghost use Rattle.moving_maps.specs.MapPairs.{MapPair, IsMapPair, still as still_of, behind, after_both};

use crate::change::{Change, When};
use crate::times::Times;
use std::marker::Model;
use transforms::{Affine, FormFault};

/// A transformation that moves: the map of the time when its motion begins, that of the time when it ends, and these times. What
/// doesn't move has the same map twice. Contracts see it as a record of these.
#[derive(Clone, Copy)]
pub struct MovingMap {
    first: Affine,
    last: Affine,
    times: Times,
}

impl Model for MovingMap {
    ghost Value = { MapPair };

    ghost view = { λ m. record { first = m.first; last = m.last; times = m.times } };

    ghost invariant = { λ m. IsMapPair (record { first = m.first; last = m.last; times = m.times }) };

    ghost inverse = { λ p. record { first = p.first; last = p.last; times = p.times } };
}

impl MovingMap {
    /// The map that doesn't move.
    pub fn still(map: Affine) -> MovingMap
        ensures { result ≡ still_of map }
    {
        MovingMap {
            first: map,
            last: map,
            times: Times::Still,
        }
    }

    /// The map of the time when the motion begins.
    pub fn first(&self) -> &Affine
        ensures { result.now ≡ self.now.first }
    {
        &self.first
    }

    /// The map of the time when the motion ends.
    pub fn last(&self) -> &Affine
        ensures { result.now ≡ self.now.last }
    {
        &self.last
    }

    /// The times of the motions in force.
    pub fn times(&self) -> Times
        ensures value { result ≡ self.now.times }
        ensures same { result ≡ stays → self.now.first ≡ self.now.last }
    {
        self.times
    }

    /// The transformation behind a request that is of these times. The refusal is `G2`, of the map of the first time before that of the
    /// last.
    pub fn behind(&self, when: &When, change: &Change) -> Result<MovingMap, FormFault>
        ensures { result ≡ behind when.now change.now self.now }
    {
        let first = change.on_if(when.is_first(), &self.first)?;
        let last = change.on_if(when.is_last(), &self.last)?;
        Ok(MovingMap {
            first,
            last,
            times: when.times_behind(change, self.times),
        })
    }

    /// The transformation that does `first` and then this one at each time; both motions are in force. The refusal is `G2`, of the map of
    /// the first time before that of the last.
    pub fn before(&self, first: &MovingMap) -> Result<MovingMap, FormFault>
        ensures { result ≡ after_both self.now first.now }
    {
        let opening = self.first.before(&first.first)?;
        let closing = self.last.before(&first.last)?;
        Ok(MovingMap {
            first: opening,
            last: closing,
            times: self.times.joined(first.times),
        })
    }
}

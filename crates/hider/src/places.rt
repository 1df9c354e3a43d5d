// Where the samples of a tile lie.
ghost use Rattle.std.specs.Prelude.{◌≡◌, ◌<◌, ◌≤◌, length};
ghost use Rattle.hider.specs.Tiles.{IsSampleGrid, ArePlacesOf, AreTimesOf, sample_count, sample_of};

use crate::sample::Sample;
use crate::sample_grid::SampleGrid;
use crate::spot::Spot;

/// The samples of a tile by number: which they are, and where each lies.
#[derive(Clone, Copy)]
pub(crate) struct Places<'a> {
    pub(crate) grid: SampleGrid,
    pub(crate) spots: &'a [Spot],
    /// The times of the first samples, of as many as something that moves has asked for.
    pub(crate) times: &'a [u16],
    pub(crate) ghost valid: { IsSampleGrid grid },
    pub(crate) ghost placed: { ArePlacesOf grid spots.now },
    pub(crate) ghost timed: { AreTimesOf grid times.now },
}

impl<'a> Places<'a> {
    /// Where sample `n` lies.
    pub(crate) fn at(&self, n: usize) -> Spot
        requires { n < sample_count self.now.grid }
        ensures { result ≡ (sample_of self.now.grid n).place }
    {
        self.spots[n]
    }

    /// The time of sample `n`.
    pub(crate) fn time(&self, n: usize) -> u16
        requires { n < sample_count self.now.grid }
        ensures { result ≡ (sample_of self.now.grid n).time }
    {
        if n < self.times.len() {
            return self.times[n];
        }
        self.grid.sample(n).time
    }

    /// Sample `n`.
    pub(crate) fn sample(&self, n: usize) -> Sample
        requires { n < sample_count self.now.grid }
        ensures { result ≡ sample_of self.now.grid n }
    {
        Sample {
            place: self.at(n),
            time: self.time(n),
        }
    }
}

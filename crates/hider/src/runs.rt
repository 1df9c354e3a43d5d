// Runs of samples.
ghost use Rattle.std.specs.Prelude.{◌≡◌, ◌≤◌, [], OnOk, length};
ghost use Rattle.std.specs.List.{cons_option};
ghost use Rattle.hider.specs.Tiles.{HavePutBetween, HaveKept, sample_count};

use crate::list::FragmentList;
use crate::places::Places;
use crate::showing::Showing;
use fixed_math::NoMemory;

/// Puts in what shows at each of the samples from number `from` to below `to`.
pub(crate) fn put_between<S: Showing>(
    lists: &mut [FragmentList],
    places: &Places<'_>,
    from: usize,
    to: usize,
    shown: &S,
) -> Result<(), NoMemory>
    requires order { from ≤ to }
    requires inside { to ≤ sample_count places.now.grid }
    requires enough { sample_count places.now.grid ≤ length lists.old }
    ensures others { HaveKept from to lists.old lists.new }
    ensures ok { OnOk result (HavePutBetween from to places.now.grid (λ s. cons_option (S.shown shown.now s) []) lists.old lists.new) }
{
    for n in from..to {
        shown.put_at(places, n, &mut lists[n])?;
    }
    Ok(())
}

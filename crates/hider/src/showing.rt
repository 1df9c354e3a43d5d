// What can show at samples.
ghost use Rattle.std.specs.Prelude.{◌≡◌, ◌<◌, [], Option, OnOk};
ghost use Rattle.std.specs.List.{cons_option};
ghost use Rattle.hider.specs.declared.fragment.Fragment.{Fragment};
ghost use Rattle.hider.specs.declared.sample.Sample.{Sample};
ghost use Rattle.hider.specs.Kept.{keep_all};
ghost use Rattle.hider.specs.Tiles.{sample_count, sample_of};

use crate::list::FragmentList;
use crate::places::Places;
use fixed_math::NoMemory;

/// Something that shows at samples.
pub(crate) trait Showing {
    ghost shown: { Self → Sample → Option Fragment };

    /// Puts in what shows at sample `n`.
    fn put_at(&self, places: &Places<'_>, n: usize, list: &mut FragmentList) -> Result<(), NoMemory>
        requires { n < sample_count places.now.grid }
        ensures { OnOk result (list.new ≡ keep_all list.old (cons_option (shown self.now (sample_of places.now.grid n)) [])) };
}

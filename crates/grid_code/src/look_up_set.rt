// Which look-ups code has.
ghost use Rattle.std.specs.Prelude.{◌≡◌, ◌<◌, false, length, slice_index, MatchOption};
ghost use Rattle.std.specs.List.Sorted.{IsStrictlyIncreasing};
ghost use Rattle.grid_code.specs.Uses.{is_one_of};

use fixed_math::List;

/// The numbers of the nodes of look-ups in the typed tree, strictly increasing.
#[derive(Drop)]
pub struct LookUpSet {
    pub nodes: List<u32>,
    pub ghost rise: { IsStrictlyIncreasing nodes },
}

impl LookUpSet {
    /// The place of a look-up among these by the number of its node, if it is one of them.
    pub fn index(&self, node: u32) -> Option<usize>
        ensures { MatchOption result (is_one_of self.now.nodes node ≡ false) (λ i. (i < length self.now.nodes) × (slice_index self.now.nodes i ≡ node)) }
    {
        self.nodes.as_slice().binary_search(&node).ok()
    }
}

// The law of the order of fragments.
ghost use Rattle.hider.specs.Fragments.{IsOnlyOrderOf};

use crate::fragment::Fragment;

/// The law of the order of fragments: for each list there is exactly one that is sorted by depth and has, for each
/// depth, the list's fragments of that depth in their order. It is that of the fragments of a sample.
pub fn fragment_order_law(fragments: &[Fragment])
    ensures { IsOnlyOrderOf fragments.now }
{}

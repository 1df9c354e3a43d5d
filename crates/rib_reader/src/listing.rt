// What is read of a list.
use crate::faults::RibCode;
use fixed_math::List;
use scene::Param;

/// What is read of a list: the lowest code that stands in its pairs, and their variables.
#[derive(Drop)]
pub struct Listing {
    pub fault: Option<RibCode>,
    pub params: List<Param>,
}

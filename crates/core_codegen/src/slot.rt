// The variables in scope.
use grid_code::Slot;

/// The variables of a frame, in the order of their registers.
#[derive(Drop)]
pub(crate) struct Scope {
    pub(crate) slots: Vec<Slot>,
}

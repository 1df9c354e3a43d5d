// Variables in scope.
use sl_ast::SlType;

/// What is known of a parameter, formal or local: its class and its type.
#[derive(Clone, Copy, Debug, PartialEq, Eq)]
pub struct Slot {
    pub uniform: bool,
    pub kind: SlType,
}

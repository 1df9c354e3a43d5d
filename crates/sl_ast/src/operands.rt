// The types of some operands.
use crate::kinds::NodeType;

/// The types of some operands.
#[derive(Clone, Copy, Debug, PartialEq, Eq)]
pub enum Operands {
    Nothing,
    One(NodeType),
    Two(NodeType, NodeType),
    Three(NodeType, NodeType, NodeType),
    /// More than any operation takes.
    Many,
}

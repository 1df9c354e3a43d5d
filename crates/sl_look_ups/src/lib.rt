//! The look-ups of a typed tree, in the order of the text: the number of each one's node, and what names its texture.
#![tactic(auto)]

mod listing;
mod look_up;
mod parameters;

pub use listing::look_ups;
pub use look_up::LookUp;
pub use parameters::binding_params;

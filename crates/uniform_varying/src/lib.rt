//! Control classes of a typed tree: which of its expressions are uniform and which of its statements stand in uniform
//! control, and the first fault of classes or control.
#![tactic(auto)]

mod classes;
mod counted;
mod fault;
mod leaving;
mod listing;
mod own_faults;
mod scope;
mod settle;
mod settled;
mod spot;
mod uniform;

pub use classes::{Classes, control, param_classes};
pub use counted::rows;
pub use fault::ControlFault;
pub use leaving::{in_branch, is_uniform_loop};
pub use scope::{enter, enter_all, formal_classes};
pub use settled::first_fault;

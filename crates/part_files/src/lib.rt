//! Parts of a picture as files: their names, and the picture that the files of a library make together.
#![tactic(auto)]

mod cause;
mod join;
mod stop;

pub use cause::{JoinCause, JoinCode};
pub use join::{joined_parts, part_name, put_picture};
pub use stop::JoinStop;

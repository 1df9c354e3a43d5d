//! The words of the command, as `clap` reads them.
#![tactic(auto)]

mod command;
mod patch_count;

pub use command::{
    Action, Command, JoinCommand, RunOptions, SceneCommand, Source, command_in, is_set, number_in,
};
pub use patch_count::PatchCount;

//! Texts of the renderer's own: the stock shaders, which a scene may use without a file of its own, and the demonstration scene.
#![tactic(auto)]

mod demonstration;
mod entry;
mod texts;

pub use demonstration::demo;
pub use texts::text;

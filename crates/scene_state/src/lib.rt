//! The scene of a list of requests: the graphics state (RenderMan Interface 3.2, sections 3 to 5), request by request.
#![tactic(auto)]

mod alike;
mod attributes;
mod blocks;
mod fault;
mod laws;
mod lights;
mod motion_blocks;
mod placing;
mod prims;
mod reading;
mod shaders;
mod state;
mod steps;
mod turning;

pub use fault::StateFault;
pub use laws::surface_in_force;
pub use reading::scene;
pub use scene::{
    Filter, Frame, LightPlaces, Options, Prim, PrimitiveVariables, Scene, ShaderKind, ShaderUse,
    Variable,
};
pub use scene_parts::StateCode;

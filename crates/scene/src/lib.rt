//! A scene as data: frames with their options and primitives, and the shader requests that primitives have
//! (RenderMan Interface 3.2, sections 3 to 5).
#![tactic(auto)]

mod filter;
mod frame;
mod lights;
mod options;
mod params;
mod seat;
mod shared;
mod uses;
mod variable;
mod variables;

pub use filter::Filter;
pub use frame::{Frame, Primitive as Prim, Scene};
pub use lights::LightPlaces;
pub use options::Options;
pub use params::{Class, Kind, Param, Values};
pub use seat::Seat;
pub use shared::Shared;
pub use uses::{ShaderKind, ShaderUse, param_copy, params_copy};
pub use variable::Variable;
pub use variables::{PrimitiveVariables, RequestVariables};

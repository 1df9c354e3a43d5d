//! What single requests give a scene: the options of a frame, looks, the shapes of patches and the faces of polygons.
#![tactic(auto)]

mod bases;
mod choices;
mod code;
mod earlier_lights;
mod faces;
mod lights_in_force;
mod look;
mod shared_lights;

pub use bases::Bases;
pub use choices::Choices;
pub use code::StateCode;
pub use faces::{Faces, faces_in, one_face, piece_total};
pub use lights_in_force::LightsInForce;
pub use look::Look;
pub use scene::{Filter, Options};

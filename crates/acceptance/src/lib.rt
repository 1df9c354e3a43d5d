//! A scene's text read and accepted with its shaders, or the first reason why it is refused.
#![tactic(auto)]

mod accepted_scene;
mod accepting;
mod code;
mod laws;
mod read;
mod refusal;
mod request_fit;
mod shaders;
mod textures;
mod use_fit;
mod values;
mod variables;

pub use accepted_scene::AcceptedScene;
pub use accepting::accept;
pub use code::{FaultCode, of_lex, of_request, of_state, of_syntax, of_type};
pub use laws::image_files_law;
pub use read::ReadShader;
pub use refusal::{FileId, Refusal, in_scene, in_shader, in_texture};
pub use request_fit::{bind, declared_names, is_of_type};
pub use shaders::UsedShaders;
pub use textures::UsedTextures;

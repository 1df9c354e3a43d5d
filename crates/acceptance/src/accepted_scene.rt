// An accepted scene.
use crate::shaders::UsedShaders;
use crate::textures::UsedTextures;
use fixed_math::List;
use scene_state::Scene;
use sl_ast::Value;

/// A scene that is right, with its shaders, the values that each shader use binds to its shader's parameters, in order, and the textures that
/// its look-ups name.
#[derive(Drop)]
pub struct AcceptedScene {
    pub scene: Scene,
    pub shaders: UsedShaders,
    pub bound: List<List<Value>>,
    pub textures: UsedTextures,
}

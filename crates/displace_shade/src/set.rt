// The shaders of a scene with their codes and values.
use fixed_math::List;
use mask_codegen::Compiled;
use sl_ast::Value;

/// The shaders of a scene: each once with its code, the place of the one of each use, the values that each use binds to its shader's
/// parameters, in order, and for each of the shader's look-ups, in order, the number of the texture that the use names there, if it names one.
#[derive(Drop)]
pub struct ShaderSet {
    pub compiled: List<Compiled>,
    pub of_use: List<u32>,
    pub bound: List<List<Value>>,
    pub look_ups: List<List<Option<u32>>>,
}

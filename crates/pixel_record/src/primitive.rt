// The primitive that a fragment is of.
use fixed_math::{Num, Text};

/// A scene's request for a shader: the shader's name, and the line of the request.
#[derive(Drop)]
pub struct ShaderRequest {
    pub name: Text,
    pub line: u32,
}

/// A primitive of the frame: its place among them, from 0, the line of its request, and where its patch stands in its mesh, as its
/// column, the mesh's columns, its row, and the mesh's rows; its shaders but for its lights; its shading rate in square pixels; by how much
/// displacement may move its points in camera space; whether it is seen from one side alone, whether that is the other one, whether
/// colour and opacity vary over its micropolygons, and whether it moves while the shutter is open.
#[derive(Drop)]
pub struct PrimitiveAccount {
    pub number: usize,
    pub line: u32,
    pub place: [u32; 4],
    pub surface: ShaderRequest,
    pub displacement: Option<ShaderRequest>,
    pub atmosphere: Option<ShaderRequest>,
    pub rate: Num,
    pub bound: Num,
    pub one_sided: bool,
    pub flip: bool,
    pub smooth: bool,
    pub moves: bool,
}

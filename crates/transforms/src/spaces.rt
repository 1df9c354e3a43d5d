// The spaces that a shader can name.
use crate::affine::Affine;
use fixed_math::Num;

/// The maps from the named spaces to camera space, and what else of the scene a shader can ask for.
#[derive(Clone, Copy)]
pub struct Spaces {
    pub world: Affine,
    pub object: Affine,
    pub shader: Affine,
    /// The least and the greatest depth that is seen.
    pub near: Num,
    pub far: Num,
    /// Whether the primitive's normals are turned over.
    pub flip: bool,
}

// The shape of a mesh.
use crate::basis::Basis;

/// The shape of a mesh (RenderMan Interface 3.2, section 5.2, `PatchMesh`): its kind, the numbers of its points along u and v,
/// whether it goes on at its start behind its end, and for a bicubic one the bases and the steps from patch to patch.
#[derive(Debug, Clone, Copy, PartialEq, Eq)]
pub struct Shape {
    pub bicubic: bool,
    pub nu: u32,
    pub nv: u32,
    pub periodic_u: bool,
    pub periodic_v: bool,
    pub basis_u: Basis,
    pub basis_v: Basis,
    pub step_u: u32,
    pub step_v: u32,
}

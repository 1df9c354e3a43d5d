// What shaders change of the points of a grid.
use fixed_math::Vec3;

/// The variables of the points of a grid that shaders change, by rows: points, normals where a displacement has left others than the
/// primitive gives, the directions in which points are seen, colours and opacities.
#[derive(Clone, Copy)]
pub struct Variables<'a> {
    pub points: &'a [Vec3],
    pub normals: Option<&'a [Vec3]>,
    pub sights: &'a [Vec3],
    pub colours: &'a [Vec3],
    pub opacities: &'a [Vec3],
}

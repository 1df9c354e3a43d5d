/// Where a patch stands in its primitive: the column c of m and the row d of n that it has in its mesh, as [c, m, d, n], its face,
/// and the places of its four corners, in the order of a bilinear patch, among the points and among the corners of all faces.
#[derive(Clone, Copy)]
pub struct Seat {
    pub place: [u32; 4],
    pub face: usize,
    pub points: [usize; 4],
    pub corners: [usize; 4],
}

// A fragment of a sample, and where it comes from.
use crate::primitive::PrimitiveAccount;
use fixed_math::{Num, Vec3};
use hider::{Fragment, Quad};
use patches::Piece;

/// A point of a shaded grid, as displacement, surface and volume leave it when the shutter opens: P in camera space, Ci and Oi; and its
/// parameters of the patch, from 0 to 1.
#[derive(Debug, Clone, Copy, PartialEq, Eq)]
pub struct GridPoint {
    pub point: Vec3,
    pub colour: Vec3,
    pub opacity: Vec3,
    pub u: Num,
    pub v: Num,
}

/// A micropolygon of the grid of a piece of a primitive: its row and its column among the cells of the grid, of which there are so many,
/// and its four corners in turn, two neighbours in a row and the two of the next row, the second one's first.
#[derive(Debug, Clone, Copy, PartialEq, Eq)]
pub struct GridCell {
    pub piece: Piece,
    pub columns: usize,
    pub rows: usize,
    pub column: usize,
    pub row: usize,
    pub points: [GridPoint; 4],
}

/// What a micropolygon shows at a sample: its depth there, its colour and its opacity. With it go the primitive, the cell of its grid,
/// and the cell's corners on the raster at the sample's time, in 1/256 pixel, each with the colour and opacity that it has there. Last,
/// the colour of all fragments to this one, laid over one another, and what passes through them: 1 where nothing was laid.
#[derive(Drop)]
pub struct FragmentAccount {
    pub fragment: Fragment,
    pub primitive: PrimitiveAccount,
    pub cell: GridCell,
    pub seen: Quad,
    pub colour: Vec3,
    pub passed: Vec3,
}

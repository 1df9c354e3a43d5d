// A micropolygon in camera space.
use fixed_math::Vec3;

/// A corner of a micropolygon in camera space: its point, its colour and its opacity.
#[derive(Debug, Clone, Copy, PartialEq, Eq)]
pub struct CellCorner {
    pub point: Vec3,
    pub colour: Vec3,
    pub opacity: Vec3,
}

/// A micropolygon in camera space at one time: its four corners in turn, two neighbours in a row of a grid and the two
/// of the next row, the second one's first.
#[derive(Debug, Clone, Copy, PartialEq, Eq)]
pub struct Cell {
    pub a: CellCorner,
    pub b: CellCorner,
    pub c: CellCorner,
    pub d: CellCorner,
}

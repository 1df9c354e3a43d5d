// A micropolygon on the raster.
use crate::spot::Spot;
use fixed_math::{Num, Vec3};

/// A corner of a micropolygon on the raster: its place, its depth in camera space, its colour and its opacity.
#[derive(Debug, Clone, Copy, PartialEq, Eq)]
pub struct Corner {
    pub place: Spot,
    pub depth: Num,
    pub colour: Vec3,
    pub opacity: Vec3,
}

/// A micropolygon on the raster: four corners in turn.
#[derive(Debug, Clone, Copy, PartialEq, Eq)]
pub struct Quad {
    pub a: Corner,
    pub b: Corner,
    pub c: Corner,
    pub d: Corner,
}

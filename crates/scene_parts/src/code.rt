// The codes of faults of a scene's state.
use std::error::Error;
use std::fmt;

/// The faults of a scene's state. Of one request, those of nesting come first, then those of geometry, then the limits, and
/// of one kind the lower number first, but `G4` before `G1` and `G2`.
#[derive(Debug, Clone, Copy, PartialEq, Eq)]
pub enum StateCode {
    /// A block begins where it may not stand, or an end isn't that of the innermost block.
    N1,
    /// An option in a world.
    N2,
    /// A number that no light has.
    N3,
    /// Blocks are open at the end.
    N4,
    /// A primitive outside a world.
    N5,
    /// A request that can't stand in its place of a motion block, or the end of a motion block outside one.
    N6,
    /// A primitive under motions between different times.
    N7,
    /// A transformation that has no inverse.
    G1,
    /// An entry of a transformation whose magnitude passes 2^47, which is 8388608 at 24 fraction bits.
    G2,
    /// A field of view that isn't above 0 and below 180 degrees, or whose tangent rounds to nothing.
    G3,
    /// A matrix whose fourth column isn't 0, 0, 0, 1.
    G4,
    /// A primitive with another number of points than it has, points that make no whole patches, or a face without three points that
    /// are there.
    G5,
    /// More than 64 blocks open at once.
    M1,
    /// More than 1,000 frames.
    M2,
    /// More than 65,536 patches in one frame.
    M3,
    /// More than 64 lights made since the last world, or since the start.
    M4,
    /// More than 4,096 pixels in a direction.
    M5,
    /// More than 16 samples in a direction of a pixel, or a filter wider or higher than 16 pixels.
    M6,
    /// A point, or a control point that is made of them, whose raw coordinate in camera space passes 2^30.
    M7,
}

impl fmt::Display for StateCode {
    fn fmt<W: fmt::Write>(&self, f: &mut fmt::Formatter<W>) -> fmt::Result {
        write!(f, "{self:?}")
    }
}

impl Error for StateCode {}

// What a micropolygon shows at a sample.
use fixed_math::{Num, Vec3};

/// What a micropolygon shows at a sample that it covers: its depth there, its colour and its opacity.
#[derive(Debug, Clone, Copy, PartialEq, Eq, Default)]
pub struct Fragment {
    pub depth: Num,
    pub colour: Vec3,
    pub opacity: Vec3,
}

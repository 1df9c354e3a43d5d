// The samples that count for a pixel, with what shows at them.
use crate::traces::Traces;
use fixed_math::Num;
use hider::Sample;

/// A sample that counts for a pixel, its weight, and its fragments that can show.
#[derive(Drop)]
pub(crate) struct Stack {
    pub(crate) sample: Sample,
    pub(crate) weight: Num,
    pub(crate) traces: Traces,
}

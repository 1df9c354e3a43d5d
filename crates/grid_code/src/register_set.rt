// Which registers code has.
ghost use Rattle.std.specs.List.Sorted.{IsStrictlyIncreasing};

use fixed_math::List;

/// The numbers of the registers of one class, by shape, each list strictly increasing.
#[derive(Drop)]
pub struct RegisterSet {
    pub numbers: List<u32>,
    pub triples: List<u32>,
    pub words: List<u32>,
    pub ghost numbers_rise: { IsStrictlyIncreasing numbers },
    pub ghost triples_rise: { IsStrictlyIncreasing triples },
    pub ghost words_rise: { IsStrictlyIncreasing words },
}

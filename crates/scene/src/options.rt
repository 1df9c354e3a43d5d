// The options of a picture.
ghost use Rattle.scene.specs.Settings.{OptionValues, AreOptions};

use crate::filter::Filter;
use fixed_math::Num;
use std::marker::Model;

/// The options of a picture. `xs` and `ys`, 1 to 16, are the samples across and down a pixel; `wx` and `wy`, 1 to 4,096,
/// the widths of the filter in 1/256 pixel; `gain` and `gamma` the exposure, with `gamma` above 0; `one`, 1 to 65,535, the
/// value of a full channel, which is put into `min` to `max`, with `min <= max <= one`; `crop` the left, top, right and bottom
/// of the pixels that the picture has, from left to below right and from top to below bottom.
#[derive(Clone, Copy)]
pub struct Options {
    pub xs: u8,
    pub ys: u8,
    pub filter: Filter,
    pub wx: u32,
    pub wy: u32,
    pub gain: Num,
    pub gamma: Num,
    pub one: u32,
    pub min: u32,
    pub max: u32,
    pub crop: [u32; 4],
}

impl Model for Options {
    ghost Value = { OptionValues };

    ghost view = { λ o. record { xs = o.xs; ys = o.ys; filter = o.filter; wx = o.wx; wy = o.wy; gain = o.gain; gamma = o.gamma; one = o.one; min = o.min; max = o.max; crop = o.crop } };

    ghost invariant = { λ o. AreOptions (record { xs = o.xs; ys = o.ys; filter = o.filter; wx = o.wx; wy = o.wy; gain = o.gain; gamma = o.gamma; one = o.one; min = o.min; max = o.max; crop = o.crop }) };

    ghost inverse = { λ o. record { xs = o.xs; ys = o.ys; filter = o.filter; wx = o.wx; wy = o.wy; gain = o.gain; gamma = o.gamma; one = o.one; min = o.min; max = o.max; crop = o.crop } };
}

impl Options {
    /// Tells the prover alone that all options lie in their ranges.
    pub fn ranges_known(&self)
        ensures { AreOptions self.now }
    {
        let _one = self.one;
    }
}

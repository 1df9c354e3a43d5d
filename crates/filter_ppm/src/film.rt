// A frame as the filter sees it: its size and its options.
ghost use Rattle.std.specs.Prelude.{◌≡◌, ◌≤◌};
ghost use Rattle.filter_ppm.specs.Sampled.{FilmFormat, IsFormat};

use scene::Options;
use std::marker::Model;

/// The size of a frame in pixels, 1 to 4,096 each way, and its options, whose crop has a pixel and lies in the frame.
#[derive(Drop)]
pub struct Film {
    pub width: u32,
    pub height: u32,
    pub options: Options,
}

impl Model for Film {
    ghost Value = { FilmFormat };

    ghost view = { λ f. record { width = f.width; height = f.height; options = f.options } };

    ghost invariant = { λ f. IsFormat (record { width = f.width; height = f.height; options = f.options }) };
}

// The sides of a texture that is looked up.
ghost use Rattle.std.specs.Prelude.{◌≡◌, ◌≤◌, ◌+◌, ◌/◌, max};

/// How many columns and rows of samples a texture has, and how far a step across them goes, in 65536ths of the whole, that surely reads the
/// last level.
#[derive(Clone, Copy)]
pub(crate) struct Sides {
    pub(crate) width: u32,
    pub(crate) height: u32,
    pub(crate) across: u32,
    pub(crate) up: u32,
    pub ghost narrow: { width ≤ 2048 },
    pub ghost low: { height ≤ 2048 },
    pub ghost far_across: { across ≡ 134217728 / max width 1 + 1 },
    pub ghost far_up: { up ≡ 134217728 / max height 1 + 1 },
}

impl Sides {
    /// The sides of a texture of so many columns and rows.
    pub(crate) fn new(width: u32, height: u32) -> Sides
        requires narrow { width ≤ 2048 }
        requires low { height ≤ 2048 }
        ensures width { result.width ≡ width }
        ensures height { result.height ≡ height }
    {
        Sides {
            width,
            height,
            across: 134217728 / width.max(1) + 1,
            up: 134217728 / height.max(1) + 1,
        }
    }
}

// A rectangle of pixels.
ghost use Rattle.std.specs.Prelude.{◌≡◌, ◌≤◌, ◌-◌, ◌*◌};
ghost use Rattle.filter_ppm.specs.Bands.{rect_with};
ghost use Rattle.filter_ppm.specs.Sums.{IsRect, as_rect};

/// The pixels from `left` to below `right` and from `top` to below `bottom`.
#[derive(Clone, Copy)]
pub(crate) struct Rect {
    pub(crate) left: usize,
    pub(crate) top: usize,
    pub(crate) right: usize,
    pub(crate) bottom: usize,
}

/// The rectangle of a left, top, right and bottom.
pub(crate) fn rect_of(rect: [u32; 4]) -> Rect
    ensures { result ≡ as_rect (rect_with rect) }
{
    let [left, top, right, bottom] = rect;
    Rect {
        left: left as usize,
        top: top as usize,
        right: right as usize,
        bottom: bottom as usize,
    }
}

impl Rect {
    /// The number of pixels of a row.
    pub(crate) fn width(&self) -> usize
        requires { IsRect self.now }
        ensures value { result ≡ self.now.right - self.now.left }
        ensures most { result ≤ 4096 }
    {
        self.right - self.left
    }

    /// The number of rows.
    pub(crate) fn height(&self) -> usize
        requires { IsRect self.now }
        ensures value { result ≡ self.now.bottom - self.now.top }
        ensures most { result ≤ 4096 }
    {
        self.bottom - self.top
    }

    /// The number of pixels.
    pub(crate) fn count(&self) -> usize
        requires { IsRect self.now }
        ensures { result ≡ (self.now.bottom - self.now.top) * (self.now.right - self.now.left) }
    {
        self.height() * self.width()
    }
}

// The levels of `Quantize`.
ghost use Rattle.std.specs.Prelude.{◌≡◌, ◌≤◌, ◌≤ℤ◌, pos};

/// The greatest level that is written, and the range that samples are put into.
#[derive(Debug, Clone, Copy, PartialEq, Eq)]
pub struct Levels {
    pub one: u32,
    pub least: u32,
    pub most: u32,
    pub ghost some: { 1 ≤ one },
    pub ghost small: { one ≤ 65535 },
    pub ghost ordered: { least ≤ most },
    pub ghost within: { most ≤ one },
}

/// These levels.
pub fn levels_of(one: i64, least: i64, most: i64) -> Levels
    requires some { pos 1 ≤ℤ one }
    requires small { one ≤ℤ pos 65535 }
    requires low { pos 0 ≤ℤ least }
    requires ordered { least ≤ℤ most }
    requires within { most ≤ℤ one }
    ensures one { pos result.one ≡ one }
    ensures least { pos result.least ≡ least }
    ensures most { pos result.most ≡ most }
{
    Levels {
        one: one as u32,
        least: least as u32,
        most: most as u32,
    }
}

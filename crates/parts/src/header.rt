// The header of a part.
ghost use Rattle.std.specs.Prelude.{◌≡◌, ◌≤◌, ◌<◌, ◌+◌, ◌-◌, ◌*◌, ◌/◌, ◌%◌, ◌^◌, ◌++◌, ◌↔◌, ℕ, IsTrue, min, length, MatchOption};
ghost use Rattle.fixed_math.specs.Buckets.{bucket, bucket_columns, buckets_along};
ghost use Rattle.parts.specs.Formats.{word, IsHeader, IsHead, HasNoHead, bucket_total, area, channel_bytes, frame};

/// What a part says of its picture: the width and height in pixels, the greatest number of a channel, the side of a bucket, and the tag
/// of the frame.
#[derive(Clone, Copy, PartialEq, Eq)]
pub struct Header {
    pub width: u32,
    pub height: u32,
    pub one: u32,
    pub side: u32,
    pub tag: u32,
}

/// The letters `REYP` and `ART1`, as numbers of four bytes.
const REYP: u32 = 0x52455950;

const ART1: u32 = 0x41525431;

/// The number in the first four bytes, the high byte first, and the bytes behind it.
pub(crate) fn word(bytes: &[u8]) -> (u32, &[u8])
    requires { 4 ≤ length bytes.now }
    ensures value { word result.0 ++ result.1.now ≡ bytes.now }
    ensures left { length result.1.now + 4 ≡ length bytes.now }
    ensures number { result.0 < 2 ^ 32 }
{
    match bytes.split_first_chunk::<4>() {
        Some((front, rest)) => (u32::from_be_bytes(*front), rest),
        None => unreachable!(),
    }
}

/// How many buckets of that side lie along so many pixels.
fn buckets_along(side: u32, pixels: u32) -> usize
    requires side { 4 ≤ side }
    requires most { side ≤ 64 }
    requires pixels { pixels ≤ 4096 }
    ensures value { result ≡ buckets_along side pixels }
    ensures most { result ≤ 1024 }
{
    (pixels as usize + (side as usize - 1)) / side as usize
}

/// How many of so many pixels bucket `k` of a row or column takes.
pub(crate) fn pixels_at(side: u32, pixels: u32, k: usize) -> usize
    requires side { side ≤ 64 }
    requires pixels { pixels ≤ 4096 }
    requires place { k ≤ 1024 }
    ensures value { result ≡ min (0 + side * k + side) pixels - (0 + side * k) }
    ensures most { result ≤ side }
{
    let start = side as usize * k;
    (start + side as usize)
        .min(pixels as usize)
        .saturating_sub(start)
}

/// Whether a number lies from `low` to `high`.
fn is_between(low: u32, high: u32, n: u32) -> bool
    ensures { IsTrue result ↔ (low ≤ n) × (n ≤ high) }
{
    low <= n && n <= high
}

impl Header {
    /// Whether each field is in its range.
    fn is_in_range(&self) -> bool
        requires { self.now.tag < 2 ^ 32 }
        ensures { IsTrue result ↔ IsHeader self.now }
    {
        is_between(1, 4096, self.width)
            && is_between(1, 4096, self.height)
            && is_between(1, 65535, self.one)
            && is_between(4, 64, self.side)
    }

    /// How many buckets lie side by side.
    pub(crate) fn columns(&self) -> usize
        requires { IsHeader self.now }
        ensures value { result ≡ bucket_columns self.now.side (frame self.now) }
        ensures most { result ≤ 1024 }
    {
        buckets_along(self.side, self.width)
    }

    /// How many buckets the picture has.
    pub(crate) fn total(&self) -> usize
        requires { IsHeader self.now }
        ensures value { result ≡ bucket_total self.now }
        ensures most { result ≤ 1048576 }
    {
        self.columns() * buckets_along(self.side, self.height)
    }

    /// How many pixels a bucket has.
    #[tactic(auto, unfolding(crate::specs::Formats::area))]
    pub(crate) fn area(&self, number: usize) -> usize
        requires header { IsHeader self.now }
        requires there { number < bucket_total self.now }
        ensures value { result ≡ area self.now number }
        ensures most { result ≤ 4096 }
    {
        let columns = self.columns();
        pixels_at(self.side, self.width, number % columns)
            * pixels_at(self.side, self.height, number / columns)
    }

    /// How many bytes a channel has.
    pub(crate) fn channel_bytes(&self) -> usize
        ensures value { result ≡ channel_bytes self.now.one }
        ensures most { result ≤ 2 }
    {
        if self.one <= 255 { 1 } else { 2 }
    }
}

/// The header at the front of a part, the count of its buckets, and the bytes behind it, where the bytes begin with one.
pub(crate) fn header_in(bytes: &[u8]) -> Option<(Header, u32, &[u8])>
    ensures { MatchOption result (HasNoHead bytes.now) (λ r. IsHead bytes.now r.0 r.1 r.2.now) }
{
    if bytes.len() < 32 {
        return None;
    }
    let (reyp, rest) = word(bytes);
    let (art1, rest) = word(rest);
    let (width, rest) = word(rest);
    let (height, rest) = word(rest);
    let (one, rest) = word(rest);
    let (side, rest) = word(rest);
    let (tag, rest) = word(rest);
    let (count, rest) = word(rest);
    let header = Header {
        width,
        height,
        one,
        side,
        tag,
    };
    if reyp == REYP && art1 == ART1 && header.is_in_range() {
        Some((header, count, rest))
    } else {
        None
    }
}

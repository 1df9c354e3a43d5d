// The header of a texture file.
ghost use Rattle.std.specs.Prelude.{◌≡◌, ◌≤◌, ◌<◌, ◌^◌, ◌↔◌, IsTrue, MatchOption};
ghost use Rattle.texture.specs.Images.{bytes_each};
ghost use Rattle.texture.specs.Scans.{IsCutHead, HasNoHead, IsBehindMagic, HasNoMagic, IsBehindWhite, HasNoWhite, IsWhole};

use crate::numbers::{is_white, number};

/// What a header says: the sides and the greatest sample, each as far as 64 bits hold it.
#[derive(Clone, Copy)]
pub(crate) struct Header {
    pub(crate) width: u64,
    pub(crate) height: u64,
    pub(crate) most: u64,
}

/// Whether a number lies from `low` to `high`.
fn is_between(low: u128, high: u128, n: u128) -> bool
    ensures { IsTrue result ↔ (low ≤ n) × (n ≤ high) }
{
    low <= n && n <= high
}

/// The bytes behind `P6`.
fn behind_magic(bytes: &[u8]) -> Option<&[u8]>
    ensures { MatchOption result (HasNoMagic bytes.now) (λ r. IsBehindMagic bytes.now r.now) }
{
    match bytes {
        [b'P', b'6', rest @ ..] => Some(rest),
        _ => None,
    }
}

/// The bytes behind one of white space.
fn behind_white(bytes: &[u8]) -> Option<&[u8]>
    ensures { MatchOption result (HasNoWhite bytes.now) (λ r. IsBehindWhite bytes.now r.now) }
{
    match bytes {
        [byte, rest @ ..] if is_white(*byte) => Some(rest),
        _ => None,
    }
}

/// The header at the front of a file, and the bytes behind it.
pub(crate) fn header_in(bytes: &[u8]) -> Option<(Header, &[u8])>
    ensures { MatchOption result (HasNoHead bytes.now) (λ r. IsCutHead bytes.now r.0 r.1.now) }
{
    let rest = behind_magic(bytes)?;
    let (width, rest) = number(rest)?;
    let (height, rest) = number(rest)?;
    let (most, rest) = number(rest)?;
    let rest = behind_white(rest)?;
    Some((
        Header {
            width,
            height,
            most,
        },
        rest,
    ))
}

impl Header {
    /// How many bytes a sample has.
    pub(crate) fn bytes_each(&self) -> u64
        ensures value { result ≡ bytes_each self.now.most }
        ensures some { 1 ≤ result }
        ensures most { result ≤ 2 }
    {
        if self.most <= 255 { 1 } else { 2 }
    }

    /// Whether so many bytes hold the samples, and each number is in its range.
    pub(crate) fn is_whole(&self, count: usize) -> bool
        ensures value { IsTrue result ↔ IsWhole self.now.width self.now.height self.now.most count }
        ensures range { count < 2 ^ 64 }
    {
        let places = self.width as u128 * self.height as u128;
        let room = count as u64 / (3 * self.bytes_each());
        is_between(1, room as u128, places) && is_between(1, 65535, self.most as u128)
    }
}

// The buckets of a part.
ghost use Rattle.std.specs.Prelude.{◌≡◌, ◌≤◌, ◌<◌, ◌+◌, ◌*◌, ◌↔◌, ℕ, length, IsTrue, IfOk, MatchOption};
ghost use Rattle.parts.specs.Formats.{Bucket as BucketValue, IsHeader, AreLevels, channel, channel_bytes, IsFirst, HasNoBucket, AreAll, AreNotBuckets};

use crate::header::{Header, word};
use fixed_math::NoMemory;
use std::alloc::Global;
use std::marker::Model;

/// A bucket by its number, with the bytes of its pixels.
#[derive(Drop)]
pub(crate) struct Bucket<'a> {
    number: usize,
    pixels: &'a [u8],
}

impl<'a> Model for Bucket<'a> {
    ghost Value = { BucketValue };

    ghost view = { λ b. record { number = b.number; pixels = b.pixels.now } };
}

impl<'a> Bucket<'a> {
    /// Its number.
    pub(crate) fn number(&self) -> usize
        ensures { result ≡ self.now.number }
    {
        self.number
    }

    /// The bytes of its pixels.
    pub(crate) fn pixels(&self) -> &'a [u8]
        ensures { result.now ≡ self.now.pixels }
    {
        self.pixels
    }
}

/// Channel `k` of pixels in these bytes, where the greatest is `one`.
fn channel(one: u32, bytes: &[u8], k: usize) -> u32
    requires { channel_bytes one * (k + 1) ≤ length bytes.now }
    ensures { result ≡ channel one bytes.now k }
{
    if one <= 255 {
        bytes[k] as u32
    } else {
        bytes[2 * k] as u32 * 256 + bytes[2 * k + 1] as u32
    }
}

/// Whether no channel of so many is above `one`.
fn are_levels(one: u32, count: usize, bytes: &[u8]) -> bool
    requires { length bytes.now ≡ channel_bytes one * count }
    ensures { IsTrue result ↔ AreLevels one count bytes.now }
{
    for k in 0..count {
        if channel(one, bytes, k) > one {
            return false;
        }
    }
    true
}

/// The bucket at the front of the bytes and the bytes behind it, where they begin with one whose number isn't below `least`.
fn bucket_in<'a>(header: &Header, least: usize, bytes: &'a [u8]) -> Option<(Bucket<'a>, &'a [u8])>
    requires { IsHeader header.now }
    ensures { MatchOption result (HasNoBucket header.now least bytes.now) (λ r. IsFirst header.now least bytes.now r.0 r.1.now) }
{
    if bytes.len() < 4 {
        return None;
    }
    let (number, rest) = word(bytes);
    let number = number as usize;
    if number < least || number >= header.total() {
        return None;
    }
    let channels = 3 * header.area(number);
    let size = header.channel_bytes() * channels;
    if rest.len() < size {
        return None;
    }
    let (pixels, rest) = rest.split_at(size);
    if are_levels(header.one, channels, pixels) {
        Some((Bucket { number, pixels }, rest))
    } else {
        None
    }
}

/// So many buckets, where the bytes are exactly their texts.
pub(crate) fn buckets_in<'a>(
    alloc: Global,
    header: &Header,
    count: u32,
    bytes: &'a [u8],
) -> Result<Option<Vec<Bucket<'a>>>, NoMemory>
    requires { IsHeader header.now }
    ensures { IfOk result (λ o. MatchOption o (AreNotBuckets header.now count bytes.now) (λ bs. AreAll header.now count bytes.now bs.items)) }
{
    let mut buckets = Vec::new(alloc);
    let mut rest = bytes;
    let mut least = 0;
    for _bucket in 0..count {
        let Some((bucket, behind)) = bucket_in(header, least, rest) else {
            return Ok(None);
        };
        least = bucket.number() + 1;
        buckets.push(bucket)?;
        rest = behind;
    }
    if rest.is_empty() {
        Ok(Some(buckets))
    } else {
        Ok(None)
    }
}

// The parts of a picture.
ghost use Rattle.std.specs.Prelude.{◌≡◌, ◌<◌, ◌≤◌, length, IfOk, MatchOption, MatchResult};
ghost use Rattle.parts.specs.Formats.{Part as PartValue, IsHeader, IsParsed, IsNoPart};
ghost use Rattle.parts.specs.Joining.{AreParsed, AreAlike, IsForeign, IsFault};

use crate::buckets::{Bucket, buckets_in};
use crate::fault::JoinFault;
use crate::header::{Header, header_in};
use fixed_math::{List, NoMemory};
use std::alloc::Global;
use std::marker::Model;

/// A part: its header and its buckets.
#[derive(Drop)]
pub(crate) struct Part<'a> {
    pub(crate) header: Header,
    pub(crate) buckets: Vec<Bucket<'a>>,
}

impl<'a> Model for Part<'a> {
    ghost Value = { PartValue };

    ghost view = { λ p. record { header = p.header; buckets = p.buckets.items } };
}

/// The part in the bytes, where they are exactly a part's.
fn part_in<'a>(alloc: Global, bytes: &'a [u8]) -> Result<Option<Part<'a>>, NoMemory>
    ensures { IfOk result (λ o. MatchOption o (IsNoPart bytes.now) (λ p. IsParsed bytes.now p)) }
{
    let Some((header, count, rest)) = header_in(bytes) else {
        return Ok(None);
    };
    let Some(buckets) = buckets_in(alloc, &header, count, rest)? else {
        return Ok(None);
    };
    Ok(Some(Part { header, buckets }))
}

/// The parts in these texts, or the first text that isn't a part's.
pub(crate) fn parts_in<'a>(alloc: Global, texts: &'a [List<u8>]) -> Result<Vec<Part<'a>>, JoinFault>
    requires { length texts.now ≤ 256 }
    ensures { MatchResult result (λ ps. AreParsed texts.now ps.items) (λ fault. IsFault texts.now fault) }
{
    let mut parts = Vec::new(alloc);
    for i in 0..texts.len() {
        let Some(part) = part_in(alloc, texts[i].as_slice())? else {
            return Err(JoinFault::J1 { part: i as u32 });
        };
        parts.push(part)?;
    }
    Ok(parts)
}

/// The first part whose header differs from that of the first.
pub(crate) fn foreign(parts: &[Part]) -> Option<usize>
    requires { 0 < length parts.now }
    ensures { MatchOption result (AreAlike parts.now (length parts.now)) (λ i. IsForeign parts.now i) }
{
    let first = &parts[0];
    for i in 0..parts.len() {
        let part = &parts[i];
        if part.header != first.header {
            return Some(i);
        }
    }
    None
}

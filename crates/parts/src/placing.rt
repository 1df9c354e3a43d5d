// Where each bucket of a picture stands among those of its parts.
ghost use Rattle.std.specs.Prelude.{◌≡◌, ◌≤◌, ◌<◌, ◌+◌, ◌++◌, ℕ, length, OnOk, IfOk, MatchOption, MatchResult};
ghost use Rattle.parts.specs.Placing.{Placed as PlacedValue, placed_in, placed_from, number_of, part_of, ArePlaced, AreOrdered, IsAgainFault, IsWantingFault};

use crate::buckets::Bucket;
use crate::fault::JoinFault;
use crate::part::Part;
use fixed_math::NoMemory;
use std::alloc::Global;
use std::marker::Model;

/// A bucket, and the number of the part that it stands in.
#[derive(Drop)]
pub(crate) struct Placed<'b, 'a> {
    part: usize,
    bucket: &'b Bucket<'a>,
}

impl<'b, 'a> Model for Placed<'b, 'a> {
    ghost Value = { PlacedValue };

    ghost view = { λ p. record { part = p.part; bucket = p.bucket.now } };
}

impl<'b, 'a> Placed<'b, 'a> {
    /// The number of its part.
    pub(crate) fn part(&self) -> usize
        ensures { result ≡ self.now.part }
    {
        self.part
    }

    /// The bucket.
    pub(crate) fn bucket(&self) -> &'b Bucket<'a>
        ensures { result.now ≡ self.now.bucket }
    {
        self.bucket
    }
}

/// Appends the buckets of a part.
fn append<'b, 'a>(
    all: &mut Vec<Placed<'b, 'a>>,
    part: usize,
    buckets: &'b [Bucket<'a>],
) -> Result<(), NoMemory>
    ensures { OnOk result (all.new.items ≡ all.old.items ++ placed_in part buckets.now) }
{
    for bucket in buckets {
        all.push(Placed { part, bucket })?;
    }
    Ok(())
}

/// All buckets of the parts, in their order.
pub(crate) fn all_placed<'b, 'a>(
    alloc: Global,
    parts: &'b [Part<'a>],
) -> Result<Vec<Placed<'b, 'a>>, NoMemory>
    ensures { IfOk result (λ all. all.items ≡ placed_from 0 parts.now) }
{
    let mut all = Vec::new(alloc);
    for i in 0..parts.len() {
        let part = &parts[i];
        append(&mut all, i, part.buckets.as_slice())?;
    }
    Ok(all)
}

/// Where the bucket of each number stands among all, or the first that stands before, too.
pub(crate) fn places_of(
    alloc: Global,
    total: usize,
    all: &[Placed],
) -> Result<Vec<Option<usize>>, JoinFault>
    requires few { total ≤ 1048576 }
    requires numbers { (k : ℕ) → k < length all.now → number_of all.now k < total }
    requires parts { (k : ℕ) → k < length all.now → part_of all.now k < 256 }
    ensures { MatchResult result (λ places. ArePlaced all.now total places.items) (λ fault. IsAgainFault all.now fault) }
{
    let mut places: Vec<Option<usize>> = Vec::new(alloc);
    places.resize(total, None)?;
    for m in 0..all.len() {
        let number = all[m].bucket().number();
        if places[number].is_some() {
            return Err(JoinFault::J3 {
                part: all[m].part() as u32,
                bucket: number as u32,
            });
        }
        places[number] = Some(m);
    }
    Ok(places)
}

/// The buckets of the picture by their numbers, or the least number that none of them has.
pub(crate) fn in_order<'b, 'a>(
    alloc: Global,
    all: &[Placed<'b, 'a>],
    places: &[Option<usize>],
) -> Result<Vec<Placed<'b, 'a>>, JoinFault>
    requires few { length places.now ≤ 1048576 }
    requires placed { ArePlaced all.now (length places.now) places.now }
    ensures { MatchResult result (λ ordered. AreOrdered all.now (length places.now) ordered.items) (λ fault. IsWantingFault all.now (length places.now) fault) }
{
    let mut ordered = Vec::new(alloc);
    for n in 0..places.len() {
        let Some(k) = places[n] else {
            return Err(JoinFault::J4 { bucket: n as u32 });
        };
        ordered.push(Placed {
            part: all[k].part(),
            bucket: all[k].bucket(),
        })?;
    }
    Ok(ordered)
}

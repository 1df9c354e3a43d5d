// Parts joined.
ghost use Rattle.std.specs.Prelude.{◌≡◌, ◌≤◌, ◌<◌, ℕ, List, length, MatchResult};
ghost use Rattle.parts.specs.Formats.{Part as PartValue};
ghost use Rattle.parts.specs.Joining.{IsJoined, IsFault};
ghost use Rattle.parts.specs.Division.{Table, IsTable, IsDivision, texts_of, table_picture};
ghost use Rattle.parts.specs.declared.fault.JoinFault.TheVariants as faults;

use crate::fault::JoinFault;
use crate::part::{foreign, parts_in};
use crate::placing::{all_placed, in_order, places_of};
use crate::ppm::picture;
use fixed_math::List;
use std::alloc::Global;

/// The picture that 1 to 256 parts make together, in the format PPM (P6), or the first fault, tried in the order of their codes. It
/// takes steps and memory in proportion to the bytes, and a table of the picture's buckets, of which there are at most 2^20.
///
/// Parts of one picture that have each bucket once, in whatever order, give the picture's bytes.
pub fn join(alloc: Global, parts: &[List<u8>]) -> Result<Vec<u8>, JoinFault>
    requires some { 1 ≤ length parts.now }
    requires most { length parts.now ≤ 256 }
    ensures joined { MatchResult result (λ bytes. (ps : List PartValue) × IsJoined parts.now ps bytes.items) (λ fault. IsFault parts.now fault) }
    ensures division { (t : Table) (numbers : List (List ℕ)) → IsTable t → IsDivision t numbers → parts.now ≡ texts_of t numbers →
        MatchResult result (λ b. b.items ≡ table_picture t) (λ f. f ≡ faults.NoMemory) }
{
    joined(alloc, parts)
}

/// The picture, or the first fault.
fn joined(alloc: Global, texts: &[List<u8>]) -> Result<Vec<u8>, JoinFault>
    requires some { 1 ≤ length texts.now }
    requires most { length texts.now ≤ 256 }
    ensures { MatchResult result (λ bytes. (ps : List PartValue) × IsJoined texts.now ps bytes.items) (λ fault. IsFault texts.now fault) }
{
    let read = parts_in(alloc, texts)?;
    if let Some(part) = foreign(read.as_slice()) {
        return Err(JoinFault::J2 { part: part as u32 });
    }
    let first = &read[0];
    let header = first.header;
    let all = all_placed(alloc, read.as_slice())?;
    let places = places_of(alloc, header.total(), all.as_slice())?;
    let ordered = in_order(alloc, all.as_slice(), places.as_slice())?;
    Ok(picture(alloc, &header, ordered.as_slice())?)
}

// Parts from a library, joined.
ghost use Rattle.std.specs.Prelude.{◌≡◌, ◌≤◌, ◌∷◌, [], false, IsErr, IsErrOf, IfOk, length, string_bytes};
ghost use Rattle.outside.specs.Causes.{Told};
ghost use Rattle.outside.specs.Library.{held_as};
ghost use Rattle.outside.specs.Steps.{AsksFor, Consults, WritesPicture};
ghost use Rattle.parts.specs.Joining.{IsFault};
ghost use Rattle.part_files.specs.Parts.{part_name, most_part_bytes, asked_parts};
ghost use Rattle.part_files.specs.Joins.{GivesPart, GivesParts, GivesPicture, IsStopOf};
ghost use Rattle.part_files.specs.declared.stop.JoinStop.TheVariants.{ReadFault, NoMemory as OutOfMemory};

use crate::cause::{JoinCause, JoinCode};
use crate::stop::JoinStop;
use fixed_math::{List, NoMemory};
use outside::{Failed, Fetch, FrameSink, Library, put_all};
use parts::{JoinFault, join};
use std::alloc::Global;

/// The most bytes of all parts of a picture.
const MOST_BYTES: u64 = 134217728;

/// The name of the file of a part, where the whole has this name.
pub fn part_name(alloc: Global, name: &str, part: u32) -> Result<String, NoMemory>
    ensures { IfOk result (λ t. string_bytes t ≡ part_name name.now part) }
{
    Ok(format!(in alloc; "{name}.{part}.part")?)
}

// The text of a part, where it is at most so long.
fn fetch_part<L: Library>(
    alloc: Global,
    library: &mut L,
    name: &str,
    part: u32,
    room: u64,
) -> Result<Vec<u8>, JoinStop>
    ensures size { IfOk result (λ text. length text.items ≤ room) }
    ensures library { AsksFor L.held L.asked L.faults library.old library.new (part_name name.now part ∷ []) result (IsErrOf result ReadFault) }
    ensures gives { Told (L.held library.old) (λ files. GivesPart part room result (held_as files (part_name name.now part))) }
{
    let file = part_name(alloc, name, part)?;
    let mut bytes = Vec::new(alloc);
    match library.fetch(&file, room, &mut bytes) {
        Fetch::Whole => Ok(bytes),
        Fetch::Missing => Err(JoinStop::Cause(JoinCause::Missing { part })),
        Fetch::TooLong => Err(JoinStop::Cause(JoinCause::At {
            part: Some(part),
            code: JoinCode::M10,
        })),
        Fetch::Failed => Err(JoinStop::ReadFault),
        Fetch::NoMemory => Err(JoinStop::NoMemory),
    }
}

// The texts of so many parts, which are asked for in their order.
fn fetch_parts<L: Library>(
    alloc: Global,
    library: &mut L,
    name: &str,
    count: u32,
) -> Result<Vec<List<u8>>, JoinStop>
    ensures count { IfOk result (λ texts. length texts.items ≡ count) }
    ensures library { Consults L.held L.asked L.faults library.old library.new (λ files. asked_parts files name.now count) (IsErrOf result ReadFault) }
    ensures gives { Told (L.held library.old) (λ files. GivesParts files name.now count result) }
{
    let mut texts = Vec::new(alloc);
    let mut room = MOST_BYTES;
    for part in 0..count {
        let text = fetch_part(alloc, library, name, part, room)?;
        room -= text.len() as u64;
        texts.push(List(text))?;
    }
    Ok(texts)
}

// What a fault of the parts stops joining with.
fn stop_of(fault: JoinFault) -> JoinStop
    ensures { IsStopOf fault result }
{
    let (part, code) = match fault {
        JoinFault::J1 { part } => (Some(part), JoinCode::J1),
        JoinFault::J2 { part } => (Some(part), JoinCode::J2),
        JoinFault::J3 { part, .. } => (Some(part), JoinCode::J3),
        JoinFault::J4 { .. } => (None, JoinCode::J4),
        JoinFault::NoMemory => return JoinStop::NoMemory,
    };
    JoinStop::Cause(JoinCause::At { part, code })
}

/// The picture of that name that so many parts in the library make together, of which the files NAME.0.part, NAME.1.part and so on hold one
/// each. They are asked for in their order, up to the first that is missing or with which they are longer together than 134,217,728 bytes.
pub fn joined_parts<L: Library>(
    alloc: Global,
    library: &mut L,
    name: &str,
    count: u32,
) -> Result<Vec<u8>, JoinStop>
    requires some { 1 ≤ count }
    requires most { count ≤ 256 }
    ensures library { Consults L.held L.asked L.faults library.old library.new (λ files. asked_parts files name.now count) (IsErrOf result ReadFault) }
    ensures gives { Told (L.held library.old) (λ files. GivesPicture files name.now count result) }
{
    let texts = fetch_parts(alloc, library, name, count)?;
    match join(alloc, &texts) {
        Ok(picture) => Ok(picture),
        Err(fault) => Err(stop_of(fault)),
    }
}

/// Puts a picture to the sink under its name, as one frame.
pub fn put_picture<O: FrameSink>(frames: &mut O, name: &str, bytes: &[u8]) -> Result<(), Failed>
    requires { O.is_open frames.old ≡ false }
    ensures { WritesPicture O.written O.is_open O.faults frames.old frames.new (record { name = name.now; bytes = bytes.now }) result (IsErr result) }
{
    frames.begin(name)?;
    put_all(frames, bytes)?;
    frames.end()
}

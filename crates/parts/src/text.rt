// The text of a part, as it is written.
ghost use Rattle.std.specs.Prelude.{◌≡◌, ◌++◌, [], OnOk, IfOk};
ghost use Rattle.parts.specs.Formats.{word, with_header};

use crate::header::Header;
use fixed_math::NoMemory;
use std::alloc::Global;

/// Appends a number in four bytes, the high byte first: the number of a bucket stands so before its pixels.
pub fn append_number(bytes: &mut Vec<u8>, number: u32) -> Result<(), NoMemory>
    ensures { OnOk result (bytes.new.items ≡ bytes.old.items ++ word number) }
{
    bytes.extend_from_slice(&number.to_be_bytes())?;
    Ok(())
}

/// The text of a part before its buckets, of which there are so many.
pub fn header_bytes(alloc: Global, header: &Header, count: u32) -> Result<Vec<u8>, NoMemory>
    ensures { IfOk result (λ bytes. bytes.items ≡ with_header header.now count []) }
{
    let mut bytes = Vec::new(alloc);
    bytes.extend_from_slice(b"REYPART1")?;
    append_number(&mut bytes, header.width)?;
    append_number(&mut bytes, header.height)?;
    append_number(&mut bytes, header.one)?;
    append_number(&mut bytes, header.side)?;
    append_number(&mut bytes, header.tag)?;
    append_number(&mut bytes, count)?;
    Ok(bytes)
}

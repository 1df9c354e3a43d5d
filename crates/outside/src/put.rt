// A whole piece to a sink.
ghost use Rattle.std.specs.Prelude.{◌≡◌, true, OnOk, OnErr};
ghost use Rattle.outside.specs.Causes.{HasCause};
ghost use Rattle.outside.specs.Frames.{PutsAll, PutsFront};

use crate::{Failed, FrameSink};

/// Puts all of the bytes to the open frame, at least one a turn. A frame must be open.
///
/// A failed call has put a front of the bytes, and the frame is still open.
pub fn put_all<O: FrameSink>(frames: &mut O, bytes: &[u8]) -> Result<(), Failed>
    requires { O.is_open frames.old ≡ true }
    ensures open { O.is_open frames.new ≡ true }
    ensures ok { OnOk result (PutsAll bytes.now (O.written frames.old) (O.written frames.new)) }
    ensures err { OnErr result (PutsFront bytes.now (O.written frames.old) (O.written frames.new)) }
    ensures cause { HasCause (O.faults frames.old) (O.faults frames.new) result }
{
    let mut at = 0;
    while at < bytes.len() {
        at += frames.put(&bytes[at..])?;
    }
    Ok(())
}

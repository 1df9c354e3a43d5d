// The notes and the statuses of questions that aren't answered.
ghost use Rattle.std.specs.Prelude.{◌≡◌, ◌≤◌, IfOk, string_bytes};
ghost use Rattle.why_run.specs.Answers.{line_of, number_of, IsFaultAt};
ghost use Rattle.why_run.specs.Run.{Tells};

use crate::stop::Stop;
use fixed_math::NoMemory;
use outside::{Notes, say_line};
use render::{Refusal, fault_note, missing_note};
use std::alloc::Global;

// The note that tells why the question isn't answered, where the scene has this name. There is none of want of memory, whose note takes
// no memory.
fn note(alloc: Global, scene: &str, stop: &Stop) -> Result<String, NoMemory>
    ensures { IfOk result (λ n. string_bytes n ≡ line_of scene.now stop.now) }
{
    match stop {
        Stop::Usage => Ok(String::from_str(alloc, "usage\n")?),
        Stop::NoScene => missing_note(alloc, scene),
        Stop::Refused(Refusal::At { file, line, code }) => {
            fault_note(alloc, scene, file, *line, code.as_str())
        }
        Stop::Refused(Refusal::Missing(file)) => missing_note(alloc, file.as_str()),
        Stop::Refused(Refusal::ReadFault) => Ok(String::from_str(alloc, "read fault\n")?),
        Stop::WriteFault => Ok(String::from_str(alloc, "write fault\n")?),
        Stop::Refused(Refusal::NoMemory) | Stop::NoMemory => Err(NoMemory),
    }
}

// The status of a question that isn't answered.
fn status(stop: &Stop) -> u8
    ensures number { result ≡ number_of stop.now }
    ensures fault { IsFaultAt stop.now → result ≤ 5 }
    ensures least { 2 ≤ result }
    ensures most { result ≤ 9 }
{
    match stop {
        Stop::Usage => 2,
        Stop::NoScene => 6,
        Stop::Refused(Refusal::At { code, .. }) => code.status(),
        Stop::Refused(refusal) => refusal.status(),
        Stop::WriteFault => 8,
        Stop::NoMemory => 9,
    }
}

/// Tells in the notes why the question isn't answered, and gives the status: want of memory, where there is none for the note.
pub(crate) fn tell<N: Notes>(alloc: Global, notes: &mut N, scene: &str, stop: &Stop) -> u8
    ensures tells { Tells scene.now stop.now result (N.lines notes.old) (N.lines notes.new) (N.faults notes.old) (N.faults notes.new) }
    ensures least { 2 ≤ result }
    ensures most { result ≤ 9 }
{
    match note(alloc, scene, stop) {
        Ok(text) => {
            say_line(notes, text.as_bytes());
            status(stop)
        }
        Err(_) => {
            say_line(notes, b"no memory\n");
            9
        }
    }
}

// The answer to a case.
ghost use Rattle.std.specs.Prelude.{◌≡◌, ◌++◌, IfOk, OnOk, string_bytes};
ghost use Rattle.std.specs.List.{flat_map};
ghost use Rattle.outside.specs.EntryOf.{entry_of};
ghost use Rattle.conformance.specs.Names.{texts};
ghost use Rattle.conformance.specs.Answer.{state_of, entry_line, head_text, answer_text, Answers};

use crate::case::Case;
use fixed_math::NoMemory;
use outside::{Entry, MemoryNotes, MemorySink};
use render::run;
use sha2::{Digest, Sha256};
use std::alloc::Global;

// The room of a case's frames, and the most bytes that its sink takes in one put.
const FRAMES_ROOM: usize = 4194304;

// The room of a case's notes.
const NOTES_ROOM: usize = 65536;

/// Runs a case, and writes the lines of its answer: its name, the status, the notes, and a line for each frame of the sink, in order, with its
/// length and its SHA-256. The frames are those of the verdict on the case's words and files: all of them where the status is 0, none where it is
/// 2 to 7, and else some first ones, of which the last may be open.
pub fn answer(alloc: Global, case: Case<'_>) -> Result<Vec<u8>, NoMemory>
    ensures { IfOk result (λ t. Answers case.entry.name.now (texts case.entry.words.items) case.entry.library.files t.items) }
{
    let Case {
        name,
        words,
        mut library,
    } = case;
    let mut frames = MemorySink::new(alloc, FRAMES_ROOM, FRAMES_ROOM)?;
    let mut notes = MemoryNotes::new(alloc, NOTES_ROOM)?;
    let status = run(alloc, &words, &mut library, &mut frames, &mut notes);
    lines(alloc, name, status, notes.text(), &frames)
}

// The lines of an answer.
fn lines(
    alloc: Global,
    name: &str,
    status: u8,
    notes: &[u8],
    frames: &MemorySink,
) -> Result<Vec<u8>, NoMemory>
    ensures { IfOk result (λ t. t.items ≡ answer_text name.now status notes.now frames.now.written) }
{
    let mut text = head(alloc, name, status, notes)?;
    add_entries(alloc, &mut text, frames)?;
    text.extend_from_slice(b"end\n")?;
    Ok(text)
}

// The lines before the entries.
fn head(alloc: Global, name: &str, status: u8, notes: &[u8]) -> Result<Vec<u8>, NoMemory>
    ensures { IfOk result (λ t. t.items ≡ head_text name.now status notes.now) }
{
    let length = notes.len();
    let lines = format!(in alloc; "case {name}\nstatus {status}\nnotes {length}\n")?;
    let mut text = lines.into_bytes();
    text.extend_from_slice(notes)?;
    text.extend_from_slice(b"\n")?;
    Ok(text)
}

// Adds a line for each entry.
fn add_entries(alloc: Global, text: &mut Vec<u8>, frames: &MemorySink) -> Result<(), NoMemory>
    ensures { OnOk result (text.new.items ≡ text.old.items ++ flat_map entry_line frames.now.written) }
{
    for n in 0..frames.entries() {
        let line = line_of(alloc, frames.entry(n))?;
        text.extend_from_slice(line.as_bytes())?;
    }
    Ok(())
}

// Whether an entry has ended, as a word.
fn state(ended: bool) -> &'static str
    ensures { result.now ≡ state_of ended }
{
    if ended { "ended" } else { "open" }
}

// The line of an entry.
#[tactic(auto, unfolding(crate::specs::Answer::entry_line))]
fn line_of(alloc: Global, frame: Entry<'_>) -> Result<String, NoMemory>
    ensures { IfOk result (λ s. string_bytes s ≡ entry_line (entry_of frame.entry)) }
{
    let name = frame.name;
    let state = state(frame.ended);
    let length = frame.bytes.len();
    let digest = hex::encode(alloc, Sha256::digest(frame.bytes))?;
    Ok(format!(in alloc; "entry {name} {state} {length} {digest}\n")?)
}

// The whole program, as one call.
ghost use Rattle.std.specs.Prelude.{◌≡◌, ◌≢◌, ◌≤◌, ◌⊎◌, ◌++◌, codes, ℕ, List, Option, true, false, Some, IfOk, OnErr, option_map, string_bytes};
ghost use Rattle.outside.specs.Causes.{Rose, Told};
ghost use Rattle.outside.specs.Steps.{Consults};
ghost use Rattle.command_line.specs.Ranges.{IsInRange};
ghost use Rattle.command_line.specs.Texts.{texts};
ghost use Rattle.render.specs.Run.{IsUsage, draws, draws_action, draws_command, IsAccepted, HasStatus, AnswersVerdict, IsRefused, AddsFrames, AddsFirstFrames, AsksFirstNames};
ghost use Rattle.command_line.specs.Command.{OnScene, Join, command_of, command_view, scene_view};
ghost use Rattle.render.specs.Verdict.{asked_for_command, asked_of};
ghost use Rattle.outside.specs.NoteLines.{Says};
ghost use Rattle.render.specs.Notes.{name_in_notes, fault_line, join_note};
ghost use Rattle.render.specs.Answers.{Obeys, ObeysTask, answer_lines, lines_in, note_lines};
ghost use Rattle.render.specs.Lines.{scene_of};
ghost use Rattle.render.specs.Course.{Course};
ghost use Rattle.render.specs.Steps.{IsStatusOf, Leaves};
ghost use Rattle.render.specs.declared.program.Answer.TheVariants.{Done, Usage, Refused, NoMemory as OutOfMemory};
ghost use Rattle.acceptance.specs.declared.refusal.Refusal.TheVariants.{ReadFault};

use crate::load::{Loaded, load};
use crate::write::write_pictures;
use crate::write_parts::write_parts;
use acceptance::{FileId, Refusal};
use buckets::DrawFault;
use command_line::{Action, Command, JoinCommand, SceneCommand, Source, command_in};
use fixed_math::NoMemory;
use outside::{FrameSink, Library, Notes, say_line};
use part_files::{JoinCause, JoinStop, joined_parts, part_name, put_picture};
use std::alloc::Global;

// What a command comes to.
#[derive(Drop)]
enum Answer {
    Done,
    Usage,
    /// The library lacks the scene.
    NoScene,
    Refused(Refusal),
    /// Parts aren't joined.
    Unjoined(JoinCause),
    WriteFault,
    /// Memory ran out, maybe behind some first frames.
    NoMemory,
}

// Carries out a command on a scene.
fn obeyed<L: Library, O: FrameSink, N: Notes>(
    alloc: Global,
    command: &SceneCommand<'_>,
    library: &mut L,
    frames: &mut O,
    notes: &mut N,
) -> Answer
    requires closed { O.is_open frames.old ≡ false }
    requires ranges { IsInRange (OnScene (scene_view command.now)) }
    ensures command { result ≢ Usage }
    ensures library { Consults L.held L.asked L.faults library.old library.new (asked_for_command (Some (OnScene (scene_view command.now)))) (result ≡ Refused ReadFault) }
    ensures sink { Leaves O.written O.is_open O.faults frames.old frames.new (draws_action command.now.action) result }
    ensures course { ObeysTask (scene_view command.now) (L.held library.old) result (O.written frames.old) (O.written frames.new) (N.lines notes.old) (N.lines notes.new) (N.faults notes.old) (N.faults notes.new) }
{
    let loaded = match load(alloc, library, command) {
        Ok(Some(loaded)) => loaded,
        Ok(None) => return Answer::NoScene,
        Err(refusal) => return Answer::Refused(refusal),
    };
    let Loaded { text, accepted } = loaded;
    match command.action {
        Action::Check => Answer::Done,
        Action::Render => {
            drop(text);
            match write_pictures(alloc, frames, notes, accepted, command.options) {
                Ok(()) => Answer::Done,
                Err(DrawFault::WriteFault) => Answer::WriteFault,
                Err(DrawFault::NoMemory) => Answer::NoMemory,
            }
        }
        Action::Part { part, count } => {
            match write_parts(alloc, frames, accepted, &text, command.options, part, count) {
                Ok(()) => Answer::Done,
                Err(DrawFault::WriteFault) => Answer::WriteFault,
                Err(DrawFault::NoMemory) => Answer::NoMemory,
            }
        }
    }
}

// Joins parts.
fn joined<L: Library, O: FrameSink>(
    alloc: Global,
    command: JoinCommand<'_>,
    library: &mut L,
    frames: &mut O,
) -> Answer
    requires closed { O.is_open frames.old ≡ false }
    requires ranges { IsInRange (Join command.name.now command.count) }
    ensures command { result ≢ Usage }
    ensures library { Consults L.held L.asked L.faults library.old library.new (asked_for_command (Some (Join command.entry.name.now command.entry.count))) (result ≡ Refused ReadFault) }
    ensures sink { Leaves O.written O.is_open O.faults frames.old frames.new true result }
    ensures course { (lines : Option (List (List ℕ))) (n : ℕ) → Obeys (Some (Join command.entry.name.now command.entry.count)) (L.held library.old) result (O.written frames.old) (O.written frames.new) lines lines n n }
{
    match joined_parts(alloc, library, command.name, command.count) {
        Ok(picture) => match put_picture(frames, command.name, &picture) {
            Ok(_) => Answer::Done,
            Err(_) => Answer::WriteFault,
        },
        Err(JoinStop::Cause(cause)) => Answer::Unjoined(cause),
        Err(JoinStop::ReadFault) => Answer::Refused(Refusal::ReadFault),
        Err(JoinStop::NoMemory) => Answer::NoMemory,
    }
}

// The name in notes of a command's scene, or of the picture whose parts it joins.
fn scene_name<'a>(command: &Command<'a>) -> &'a str
    ensures { result.now ≡ scene_of (Some (command_view command.now)) }
{
    match command {
        Command::Scene(scene) => match &scene.source {
            Source::File(name) => name,
            Source::Demo(_) => "demo",
        },
        Command::Join(join) => join.name,
    }
}

// Carries out a command.
fn carried_out<L: Library, O: FrameSink, N: Notes>(
    alloc: Global,
    command: &Command<'_>,
    library: &mut L,
    frames: &mut O,
    notes: &mut N,
) -> Answer
    requires closed { O.is_open frames.old ≡ false }
    requires ranges { IsInRange (command_view command.now) }
    ensures command { result ≢ Usage }
    ensures library { Consults L.held L.asked L.faults library.old library.new (asked_for_command (Some (command_view command.now))) (result ≡ Refused ReadFault) }
    ensures sink { Leaves O.written O.is_open O.faults frames.old frames.new (draws_command (Some (command_view command.now))) result }
    ensures course { Obeys (Some (command_view command.now)) (L.held library.old) result (O.written frames.old) (O.written frames.new) (N.lines notes.old) (N.lines notes.new) (N.faults notes.old) (N.faults notes.new) }
{
    match command {
        Command::Scene(scene) => obeyed(alloc, scene, library, frames, notes),
        Command::Join(join) => joined(alloc, *join, library, frames),
    }
}

// All but the note: what the words come to, and the scene's name.
fn answered<'a, L: Library, O: FrameSink, N: Notes>(
    alloc: Global,
    words: &'a [&'a str],
    library: &mut L,
    frames: &mut O,
    notes: &mut N,
) -> (Answer, &'a str)
    requires { O.is_open frames.old ≡ false }
    ensures usage { result.0 ≡ Usage → IsUsage (texts words.now) }
    ensures usage_known { IsUsage (texts words.now) → (result.0 ≡ Usage) ⊎ (result.0 ≡ OutOfMemory) }
    ensures library { Consults L.held L.asked L.faults library.old library.new (asked_of (texts words.now)) (result.0 ≡ Refused ReadFault) }
    ensures sink { Leaves O.written O.is_open O.faults frames.old frames.new (draws (texts words.now)) result.0 }
    ensures named { result.0 ≢ OutOfMemory → result.1.now ≡ scene_of (command_of (texts words.now)) }
    ensures course { Obeys (command_of (texts words.now)) (L.held library.old) result.0 (O.written frames.old) (O.written frames.new) (N.lines notes.old) (N.lines notes.new) (N.faults notes.old) (N.faults notes.new) }
{
    match command_in(alloc, words) {
        Ok(Some(command)) => (
            carried_out(alloc, &command, library, frames, notes),
            scene_name(&command),
        ),
        Ok(None) => (Answer::Usage, ""),
        Err(_) => (Answer::NoMemory, ""),
    }
}

/// The note of a fault at a line of a file, where the scene has this name: the file's name, the line, and the code.
pub fn fault_note(
    alloc: Global,
    scene: &str,
    file: &FileId,
    line: u32,
    code: &str,
) -> Result<String, NoMemory>
    ensures { IfOk result (λ n. string_bytes n ≡ fault_line (name_in_notes scene.now file.now) line code.now) }
{
    Ok(match file {
        FileId::Scene => format!(in alloc; "{scene}:{line}: {code}\n")?,
        FileId::Shader(name) => {
            let name = name.as_str();
            format!(in alloc; "{name}.sl:{line}: {code}\n")?
        }
        FileId::Texture(name) => {
            let name = name.as_str();
            format!(in alloc; "{name}:{line}: {code}\n")?
        }
    })
}

// The note of a fault in the first line of a file.
fn first_line_note(alloc: Global, file: &str, code: &str) -> Result<String, NoMemory>
    ensures { IfOk result (λ n. string_bytes n ≡ fault_line file.now 1 code.now) }
{
    let line = 1u32;
    Ok(format!(in alloc; "{file}:{line}: {code}\n")?)
}

/// The note of a file that is missing.
pub fn missing_note(alloc: Global, file: &str) -> Result<String, NoMemory>
    ensures { IfOk result (λ n. string_bytes n ≡ file.now ++ codes ": missing\n") }
{
    Ok(format!(in alloc; "{file}: missing\n")?)
}

// The note of parts that aren't joined, where the picture has this name.
fn join_note(alloc: Global, name: &str, cause: JoinCause) -> Result<String, NoMemory>
    ensures { IfOk result (λ n. string_bytes n ≡ join_note name.now cause) }
{
    match cause {
        JoinCause::Missing { part } => {
            let file = part_name(alloc, name, part)?;
            missing_note(alloc, &file)
        }
        JoinCause::At {
            part: Some(part),
            code,
        } => {
            let file = part_name(alloc, name, part)?;
            first_line_note(alloc, &file, code.as_str())
        }
        JoinCause::At { part: None, code } => first_line_note(alloc, name, code.as_str()),
    }
}

// The note of an answer, where the scene has this name. There is none of want of memory, whose note takes no memory.
fn note(alloc: Global, scene: &str, answer: &Answer) -> Result<Option<String>, NoMemory>
    ensures line { IfOk result (λ n. lines_in (option_map string_bytes n) ≡ answer_lines scene.now answer.now) }
    ensures done { OnErr result (answer.now ≢ Done) }
{
    let text = match answer {
        Answer::Done => return Ok(None),
        Answer::Usage => String::from_str(alloc, "usage\n")?,
        Answer::NoScene => format!(in alloc; "{scene}: missing\n")?,
        Answer::Refused(Refusal::At { file, line, code }) => {
            fault_note(alloc, scene, file, *line, code.as_str())?
        }
        Answer::Unjoined(cause) => join_note(alloc, scene, *cause)?,
        Answer::Refused(Refusal::Missing(file)) => {
            let file = file.as_str();
            format!(in alloc; "{file}: missing\n")?
        }
        Answer::Refused(Refusal::ReadFault) => String::from_str(alloc, "read fault\n")?,
        Answer::WriteFault => String::from_str(alloc, "write fault\n")?,
        Answer::Refused(Refusal::NoMemory) | Answer::NoMemory => return Err(NoMemory),
    };
    Ok(Some(text))
}

// Gives the line of a note to the user.
fn tell<N: Notes>(notes: &mut N, note: &Result<Option<String>, NoMemory>)
    ensures { Says (note_lines note.now) (N.lines notes.old) (N.lines notes.new) (N.faults notes.old) (N.faults notes.new) }
{
    match note {
        Ok(None) => {}
        Ok(Some(text)) => say_line(notes, text.as_bytes()),
        Err(_) => say_line(notes, b"no memory\n"),
    }
}

// The status of an answer whose note is this.
fn status(answer: &Answer, note: &Result<Option<String>, NoMemory>) -> u8
    ensures { IsStatusOf answer.now note.now result }
{
    match answer {
        _ if note.is_err() => 9,
        Answer::Done => 0,
        Answer::Usage => 2,
        Answer::NoScene => 6,
        Answer::Refused(Refusal::At { code, .. }) => code.status(),
        Answer::Refused(refusal) => refusal.status(),
        Answer::Unjoined(cause) => cause.status(),
        Answer::WriteFault => 8,
        Answer::NoMemory => 9,
    }
}

/// Runs a command: its words are `reyes ACTION NAME [--bucket B] [--grid-points G] [--stats] [--part K] [--of N]` as `clap` reads
/// them. The action is `render`, `check` or `part`, and NAME names a scene file; or it is `demo`, and NAME is a row of digits, the
/// number of patches of the demonstration scene, 1 to 1,000; or it is `join`, and NAME is that of a picture whose parts are files. B, 4
/// to 64, is the side in pixels of the buckets in which frames are drawn; G, 289 to 1,000,000, is the most points of shaded grids that
/// are kept at one time; neither changes a byte of a picture. N, 1 to 256, is the number of parts of a picture, and K, below N, is one of
/// them: `part` needs both, `join` needs N alone, and the other actions take neither.
///
/// The scene's file is asked of the library and read to its end, and then each shader x that a primitive of it uses, once, by first use:
/// the file `x.sl`, or the stock text of x where there is no such file; and then each texture that a look-up of these names, once, by
/// first use. With `render` and `demo` the frames then go to the sink, each a row of buckets at a time; with `part` the buckets of each
/// frame whose numbers are K modulo N do, as an entry whose name has `.K.part` behind the frame's; with `check` nothing is written.
/// `join` asks for the files NAME.0.part, NAME.1.part and so on instead, and the picture that they make goes to the sink, under NAME. No
/// frame of the sink may be open. With `render --stats`, and always with `demo`, a line of the notes tells of each frame behind its end
/// how many grids were shaded for it, and in how many epochs.
///
/// The answer is a status: 0 done; 2 the words are no command, or they ask for help; 3 the scene or a shader has a fault of syntax, the
/// scene one of nesting, a texture's file is none, or the files of parts aren't the parts of one picture with each bucket once; 4 a
/// shader has a fault of types, or a shader request or a primitive's variables don't fit a shader; 5 the scene has a fault of geometry,
/// or it, a shader, the textures or the parts pass a limit; 6 the library lacks the scene, a part, a texture, or a shader that the stock
/// lacks too; 7 the library failed; 8 the sink failed; 9 want of memory. With each but 0 a line goes to the notes, which changes no
/// status.
pub fn run<'a, L: Library, O: FrameSink, N: Notes>(
    alloc: Global,
    words: &'a [&'a str],
    library: &mut L,
    frames: &mut O,
    notes: &mut N,
) -> u8
    requires { O.is_open frames.old ≡ false }

    // The answers, and what follows from the words alone.
    ensures answers { (result ≡ 0) ⊎ ((2 ≤ result) × (result ≤ 9)) }
    ensures usage { result ≡ 2 → IsUsage (texts words.now) }
    ensures usage_known { IsUsage (texts words.now) → (result ≡ 2) ⊎ (result ≡ 9) }
    ensures write_draws { result ≡ 8 → draws (texts words.now) ≡ true }
    ensures undrawn { draws (texts words.now) ≡ false → O.written frames.new ≡ O.written frames.old }
    ensures undrawn_closed { draws (texts words.now) ≡ false → O.is_open frames.new ≡ false }

    // 0: the entries added are exactly the frames of the accepted scene, each whole and ended; none where it was to be checked.
    ensures accepted { result ≡ 0 → Told (L.held library.old) (λ files. IsAccepted (texts words.now) files) }
    ensures done { result ≡ 0 → Told (L.held library.old) (λ files. AddsFrames (texts words.now) files (O.written frames.old) (O.written frames.new)) }

    // Every answer leaves a prefix of the frames, and one before the first frame leaves nothing new.
    ensures left { Told (L.held library.old) (λ files. AddsFirstFrames (texts words.now) files (O.written frames.old) (O.written frames.new)) }
    ensures before { 2 ≤ result → result ≤ 7 → O.written frames.new ≡ O.written frames.old }
    ensures closed { result ≢ 8 → result ≢ 9 → O.is_open frames.new ≡ false }

    // Each answer but want of memory has its cause.
    ensures verdict { result ≤ 6 → Told (L.held library.old) (λ files. HasStatus (texts words.now) files result) }
    ensures read { result ≡ 7 → Rose (L.faults library.old) (L.faults library.new) }
    ensures write { result ≡ 8 → Rose (O.faults frames.old) (O.faults frames.new) }
    ensures write_accepted { result ≡ 8 → Told (L.held library.old) (λ files. IsAccepted (texts words.now) files) }

    // Where nothing failed, the answer is the verdict's or want of memory; where the scene is refused, the sink's faults don't matter.
    ensures complete { (Rose (L.faults library.old) (L.faults library.new) → ⊥) → (Rose (O.faults frames.old) (O.faults frames.new) → ⊥) → Told (L.held library.old) (λ files. AnswersVerdict (texts words.now) files result) }
    ensures complete_refused { (Rose (L.faults library.old) (L.faults library.new) → ⊥) → Told (L.held library.old) (λ files. IsRefused (texts words.now) files → AnswersVerdict (texts words.now) files result) }

    // One course of the run has its verdict, the frames that it ended, and the lines that the notes were given of both; a line that
    // fails is missing among them, and changes nothing else.
    ensures course { Course (texts words.now) (L.held library.old) result (O.written frames.old) (O.written frames.new) (N.lines notes.old) (N.lines notes.new) (N.faults notes.old) (N.faults notes.new) }

    // Only names that the verdict asks for were asked for, in its order, and what is held stays.
    ensures asked { Told (L.held library.old) (λ files. AsksFirstNames (texts words.now) files (L.asked library.old) (L.asked library.new)) }
    ensures held { L.held library.new ≡ L.held library.old }
    ensures library_later { L.faults library.old ≤ L.faults library.new }
    ensures sink_later { O.faults frames.old ≤ O.faults frames.new }
{
    let (answer, scene) = answered(alloc, words, library, frames, notes);
    let note = note(alloc, scene, &answer);
    tell(notes, &note);
    status(&answer, &note)
}

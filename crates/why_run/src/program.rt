// The whole program, as one call.
ghost use Rattle.std.specs.Prelude.{◌≡◌, ◌≢◌, ◌≤◌, ◌⊎◌, OnOk, OnErr, IfErr, IsErrOf, Some};
ghost use Rattle.outside.specs.Asked.{AsksFront};
ghost use Rattle.outside.specs.Causes.{Rose, Told};
ghost use Rattle.outside.specs.NoteLines.{Says};
ghost use Rattle.outside.specs.Steps.{Consults};
ghost use Rattle.acceptance.specs.declared.refusal.Refusal.TheVariants.{ReadFault};
ghost use Rattle.command_line.specs.Texts.{texts};
ghost use Rattle.why_words.specs.Question.{question_view, question_of};
ghost use Rattle.why_run.specs.Verdict.{verdict_of, verdict_of_question, status_of, name_of, names_for, asked_of, status_lines};
ghost use Rattle.why_run.specs.Answers.{IsOf};
ghost use Rattle.why_run.specs.Run.{Answers};
ghost use Rattle.why_run.specs.declared.stop.Stop.TheVariants.{Refused, WriteFault, NoMemory};

use crate::explained::answer;
use crate::notes::tell;
use crate::stop::Stop;
use outside::{Library, Notes};
use std::alloc::Global;
use why_words::{Question, question_in};

// Answers a question by a line of the output.
fn answered<L: Library, O: Notes>(
    alloc: Global,
    question: &Question<'_>,
    library: &mut L,
    output: &mut O,
) -> Result<(), Stop>
    ensures done { OnOk result (Told (L.held library.old) (λ files. Answers (verdict_of_question (Some (question_view question.now)) files) (O.lines output.old) (O.lines output.new))) }
    ensures undone { OnErr result (O.lines output.new ≡ O.lines output.old) }
    ensures stopped { IfErr result (λ s. Told (L.held library.old) (λ files. IsOf question.now.name.now s (verdict_of_question (Some (question_view question.now)) files))) }
    ensures library { Consults L.held L.asked L.faults library.old library.new (names_for question.now.name.now) (IsErrOf result (Refused ReadFault)) }
    ensures later { O.faults output.old ≤ O.faults output.new }
    ensures write { IsErrOf result WriteFault → Rose (O.faults output.old) (O.faults output.new) }
{
    let text = answer(alloc, library, question)?;
    match output.line(text.as_bytes()) {
        Ok(()) => Ok(()),
        Err(_) => Err(Stop::WriteFault),
    }
}

// All but the note: whether the words are answered, and the scene's name.
fn carried_out<'a, L: Library, O: Notes>(
    alloc: Global,
    words: &'a [&'a str],
    library: &mut L,
    output: &mut O,
) -> (Result<(), Stop>, &'a str)
    ensures done { OnOk result.0 (Told (L.held library.old) (λ files. Answers (verdict_of (texts words.now) files) (O.lines output.old) (O.lines output.new))) }
    ensures undone { OnErr result.0 (O.lines output.new ≡ O.lines output.old) }
    ensures stopped { IfErr result.0 (λ s. Told (L.held library.old) (λ files. IsOf (name_of (question_of (texts words.now))) s (verdict_of (texts words.now) files))) }
    ensures named { (IsErrOf result.0 NoMemory → ⊥) → result.1.now ≡ name_of (question_of (texts words.now)) }
    ensures library { Consults L.held L.asked L.faults library.old library.new (asked_of (texts words.now)) (IsErrOf result.0 (Refused ReadFault)) }
    ensures later { O.faults output.old ≤ O.faults output.new }
    ensures write { IsErrOf result.0 WriteFault → Rose (O.faults output.old) (O.faults output.new) }
{
    match question_in(alloc, words) {
        Ok(Some(question)) => (answered(alloc, &question, library, output), question.name),
        Ok(None) => (Err(Stop::Usage), ""),
        Err(_) => (Err(Stop::NoMemory), ""),
    }
}

/// Runs a command: its words are `why NAME X Y [--frame F] [--points]` as `clap` reads them. NAME names a scene file, F, 0 to 999, is one
/// of its frames, the first where it isn't given, and X and Y, 0 to 4,095, are the column and the row of a pixel of that frame's picture.
///
/// The scene's file is asked of the library and read to its end, then its shaders and its textures, as for the drawing of the scene. The
/// account of the pixel goes to the output as one line, of JSON; with `--points` it has the corners of all micropolygons in it.
///
/// The answer is a status: 0 done; 2 the words are no command or ask for help, the scene has no such frame, or its picture no such pixel; 3
/// to 6 the scene is refused, as where it is drawn; 7 the library failed; 8 the output failed; 9 want of memory. With each but 0 a line
/// goes to the notes, which changes no status.
pub fn run<'a, L: Library, O: Notes, N: Notes>(
    alloc: Global,
    words: &'a [&'a str],
    library: &mut L,
    output: &mut O,
    notes: &mut N,
) -> u8
    // The answers, and the one line of the output: the text of an account of the pixel that is asked about, in the accepted scene.
    ensures answers { (result ≡ 0) ⊎ ((2 ≤ result) × (result ≤ 9)) }
    ensures done { result ≡ 0 → Told (L.held library.old) (λ files. Answers (verdict_of (texts words.now) files) (O.lines output.old) (O.lines output.new)) }
    ensures undone { result ≢ 0 → O.lines output.new ≡ O.lines output.old }

    // Each answer but want of memory has its cause; where nothing failed, it is the verdict's or want of memory.
    ensures verdict { result ≤ 6 → Told (L.held library.old) (λ files. status_of (verdict_of (texts words.now) files) ≡ result) }
    ensures read { result ≡ 7 → Rose (L.faults library.old) (L.faults library.new) }
    ensures write { result ≡ 8 → Rose (O.faults output.old) (O.faults output.new) }
    ensures write_asked { result ≡ 8 → Told (L.held library.old) (λ files. status_of (verdict_of (texts words.now) files) ≡ 0) }
    ensures complete { (Rose (L.faults library.old) (L.faults library.new) → ⊥) → (Rose (O.faults output.old) (O.faults output.new) → ⊥) → Told (L.held library.old) (λ files. (status_of (verdict_of (texts words.now) files) ≡ result) ⊎ (result ≡ 9)) }

    // The notes are given the line of the status.
    ensures says { Told (L.held library.old) (λ files. Says (status_lines (name_of (question_of (texts words.now))) (verdict_of (texts words.now) files) result) (N.lines notes.old) (N.lines notes.new) (N.faults notes.old) (N.faults notes.new)) }

    // Only names that the verdict asks for were asked for, in its order, and what is held stays.
    ensures asked { Told (L.held library.old) (λ files. AsksFront (asked_of (texts words.now) files) (L.asked library.old) (L.asked library.new)) }
    ensures held { L.held library.new ≡ L.held library.old }
    ensures library_later { L.faults library.old ≤ L.faults library.new }
    ensures output_later { O.faults output.old ≤ O.faults output.new }
{
    let (answer, scene) = carried_out(alloc, words, library, output);
    match answer {
        Ok(()) => 0,
        Err(stop) => tell(alloc, notes, scene, &stop),
    }
}

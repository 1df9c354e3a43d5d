// A line to the notes.
ghost use Rattle.std.specs.Prelude.{◌∷◌, []};
ghost use Rattle.outside.specs.NoteLines.{Says};

use crate::Notes;

/// Says a line. One that fails is missing among the lines, and changes nothing else.
pub fn say_line<N: Notes>(notes: &mut N, text: &[u8])
    ensures { Says (text.now ∷ []) (N.lines notes.old) (N.lines notes.new) (N.faults notes.old) (N.faults notes.new) }
{
    let _ = notes.line(text);
}

// Sets of words.
ghost use Rattle.std.specs.Prelude.{◌≡◌, map};
ghost use Rattle.rib_reader.specs.Entries.{word_of};
ghost use Rattle.rib_reader.specs.Table.{words_in};
ghost use Rattle.rib_reader.specs.Rules.{is_among};

use crate::entry::Word;
use crate::table::Words;
use crate::texts::is_word;
use fixed_math::Text;

// The words of a set.
fn members(words: Words) -> &'static [Word]
    ensures { map word_of result.now ≡ words_in words }
{
    match words {
        Words::Projections => &[Word("orthographic"), Word("perspective")],
        Words::Filters => &[Word("box"), Word("triangle"), Word("gaussian")],
        Words::Modes => &[Word("rgb"), Word("rgba")],
        Words::Interpolations => &[Word("constant"), Word("smooth")],
        Words::Orientations => &[Word("outside"), Word("inside"), Word("lh"), Word("rh")],
        Words::Handed => &[Word("lh"), Word("rh")],
        Words::Bases => &[
            Word("bezier"),
            Word("b-spline"),
            Word("catmull-rom"),
            Word("hermite"),
            Word("power"),
        ],
        Words::Patches => &[Word("bilinear"), Word("bicubic")],
        Words::Bicubic => &[Word("bicubic")],
        Words::Wraps => &[Word("periodic"), Word("nonperiodic")],
        Words::Bounds => &[Word("displacementbound")],
    }
}

fn is_among(words: &[Word], text: &Text) -> bool
    ensures { result ≡ is_among (map word_of words.now) text.now }
{
    for word in words {
        if is_word(text, word.0) {
            return true;
        }
    }
    false
}

/// Whether the text is a word of the set.
pub fn is_in(words: Words, text: &Text) -> bool
    ensures { result ≡ is_among (words_in words) text.now }
{
    is_among(members(words), text)
}

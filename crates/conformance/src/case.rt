// A case, and how its lines are read.
ghost use Rattle.std.specs.Prelude.{◌≡◌, ◌↔◌, ◌∷◌, [], ◌++◌, eqb, false, Ok, Some, IsTrue, IfOk, IfErr, OnOk, codes, slice_get};
ghost use Rattle.std.specs.List.{slice_split};
ghost use Rattle.conformance.specs.Lines.{Stands, number_at};
ghost use Rattle.conformance.specs.Names.{IsName, space, texts, words_line};
ghost use Rattle.conformance.specs.Reading.{CameFurther, IsOfText};
ghost use Rattle.conformance.specs.declared.stop.Stop.TheVariants.{Form};

use crate::reader::Reader;
use crate::stop::Stop;
use fixed_math::NoMemory;
use outside::MemoryLibrary;
use std::alloc::Global;

/// A case: its name, the words of its command with the program's name before them, and its files.
#[derive(Drop)]
pub struct Case<'a> {
    pub name: &'a str,
    pub words: Vec<&'a str>,
    pub library: MemoryLibrary,
}

impl<'a> Case<'a> {
    /// The next case of a text.
    pub fn read(alloc: Global, reader: &mut Reader<'a>) -> Result<Case<'a>, Stop>
        ensures further { OnOk result (CameFurther reader.old reader.new) }
        ensures stop { IfErr result IsOfText }
    {
        let name = read_name(reader)?;
        let words = read_words(alloc, reader)?;
        let mut library = MemoryLibrary::new(alloc);
        while read_file(reader, &mut library)? {}
        Ok(Case {
            name,
            words,
            library,
        })
    }
}

// Whether this is a name: at least one byte, and no space.
fn is_name(text: &str) -> bool
    ensures { IsTrue result ↔ IsName text.now }
{
    !text.is_empty() && !text.as_bytes().contains(&b' ')
}

// The name in the first line of a case.
fn read_name<'a>(reader: &mut Reader<'a>) -> Result<&'a str, Stop>
    ensures further { OnOk result (CameFurther reader.old reader.new) }
    ensures name { IfOk result (λ n. IsName n.now) }
    ensures malformed { IfErr result (λ e. e ≡ Form (number_at reader.old.text.now reader.old.at)) }
    ensures read { IfOk result (λ n. Stands reader.old.text.now reader.old.at reader.new.at (codes "case " ++ n.now)) }
{
    match reader.line()?.strip_prefix("case ") {
        Some(name) if is_name(name) => Ok(name),
        _ => Err(reader.malformed()),
    }
}

// The words of a command that has none behind the program's name.
fn program_alone<'a>(alloc: Global) -> Result<Vec<&'a str>, NoMemory>
    ensures { IfOk result (λ ws. texts ws.items ≡ codes "reyes" ∷ []) }
{
    let mut words = Vec::new(alloc);
    words.push("reyes")?;
    Ok(words)
}

// The words of a list, in which each but the first stands behind one space, behind the program's name.
fn words_of<'a>(alloc: Global, list: &'a str) -> Result<Vec<&'a str>, NoMemory>
    ensures { IfOk result (λ ws. texts ws.items ≡ codes "reyes" ∷ slice_split (λ b. eqb b space) list.now) }
{
    let mut words = program_alone(alloc)?;
    for word in list.split(' ') {
        words.push(word)?;
    }
    Ok(words)
}

// The words of a case, behind the program's name.
fn read_words<'a>(alloc: Global, reader: &mut Reader<'a>) -> Result<Vec<&'a str>, Stop>
    ensures further { OnOk result (CameFurther reader.old reader.new) }
    ensures stop { IfErr result IsOfText }
    ensures program { IfOk result (λ ws. slice_get (texts ws.items) 0 ≡ Some (codes "reyes")) }
    ensures read { IfOk result (λ ws. Stands reader.old.text.now reader.old.at reader.new.at (words_line (texts ws.items))) }
{
    let line = reader.line()?;
    if line == "words" {
        return Ok(program_alone(alloc)?);
    }
    let Some(list) = line.strip_prefix("words ") else {
        return Err(reader.malformed());
    };
    let words = words_of(alloc, list)?;
    if words.iter().any(|word| word.is_empty()) {
        return Err(reader.malformed());
    }
    Ok(words)
}

// The number that these digits write.
fn number(digits: &str) -> Option<usize> {
    if digits.starts_with('+') {
        return None;
    }
    digits.parse().ok()
}

// The name and the length in the first line of a file.
fn file_head(line: &str) -> Option<(&str, usize)> {
    let (name, length) = line.strip_prefix("file ")?.split_once(' ')?;
    if name.is_empty() {
        return None;
    }
    Some((name, number(length)?))
}

// Adds the next file to the library, or says that the case ends.
fn read_file(reader: &mut Reader<'_>, library: &mut MemoryLibrary) -> Result<bool, Stop>
    ensures further { OnOk result (CameFurther reader.old reader.new) }
    ensures stop { IfErr result IsOfText }
    ensures last { result ≡ Ok false → Stands reader.old.text.now reader.old.at reader.new.at (codes "end") }
    ensures kept { result ≡ Ok false → library.new ≡ library.old }
{
    let line = reader.line()?;
    if line == "end" {
        return Ok(false);
    }
    let Some((name, length)) = file_head(line) else {
        return Err(reader.malformed());
    };
    let bytes = reader.bytes(length)?;
    library.add(name, bytes)?;
    Ok(true)
}

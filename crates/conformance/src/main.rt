//! The program `conformance`: answers the cases of standard input on standard output.
//!
//! A case is a group of lines: `case NAME`; `words`, with the words behind the program's name, each behind one space;
//! any number of `file NAME LENGTH`, each followed by that many bytes and a line feed; and `end`. A name has at least
//! one byte and no space. The answer to a case is a group of lines too: `case NAME`; `status S`; `notes LENGTH`,
//! followed by that many bytes and a line feed; for each frame in order `entry NAME ended LENGTH SHA256`, or `open` in
//! the place of `ended`; and `end`.
//!
//! A text that isn't of this form ends the program with status 1 behind the answers to the cases before, and standard
//! error then has the number of the line.
#![tactic(auto)]

mod answer;
mod case;
mod reader;
mod stop;

ghost use Rattle.std.specs.Prelude.{◌≢◌, OnOk, IfErr};
ghost use Rattle.conformance.specs.Reading.{CameFurther, IsOfText};
ghost use Rattle.conformance.specs.declared.stop.Stop.TheVariants.{Output};

use answer::answer;
use case::Case;
use reader::Reader;
use std::io;
use std::io::{Read, Write};
use std::process::ExitCode;
use stop::Stop;

/// All of standard input.
fn input(rt: &(impl Input + AllocGlobal)) -> Result<Vec<u8>, Stop> {
    let mut text = Vec::new(rt.alloc());
    match rt.reader().read_to_end(&mut text) {
        Ok(_) => Ok(text),
        Err(_) => Err(Stop::Input),
    }
}

/// Answers one case.
fn answer_next(rt: &(impl Print + AllocGlobal), reader: &mut Reader<'_>) -> Result<(), Stop>
    ensures further { OnOk result (CameFurther reader.old reader.new) }
    ensures stop { IfErr result (λ e. e ≢ Output → IsOfText e) }
{
    let case = Case::read(rt.alloc(), reader)?;
    let text = answer(rt.alloc(), case)?;
    match io::writer(rt).write_all(&text) {
        Ok(()) => Ok(()),
        Err(_) => Err(Stop::Output),
    }
}

/// Answers the cases of standard input, one after another.
fn answer_all(rt: &(impl Input + Print + AllocGlobal)) -> Result<(), Stop> {
    let text = input(rt)?;
    let mut reader = Reader::new(&text);
    while !reader.is_at_end() {
        answer_next(rt, &mut reader)?;
    }
    Ok(())
}

fn main(rt: HostRuntime) -> ExitCode {
    match answer_all(&rt) {
        Ok(()) => ExitCode::SUCCESS,
        Err(stop) => {
            let _ = eprintln!(rt; "{stop}");
            ExitCode::FAILURE
        }
    }
}

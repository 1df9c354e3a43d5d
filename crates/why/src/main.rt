//! The program `why`: the account of a pixel over real files, standard output and standard error.
#![tactic(auto)]

use fixed_math::NoMemory;
use outside::{FileLibrary, StderrNotes};
use std::alloc::Global;
use std::env;
use std::io::ErrorKind;
use std::process::ExitCode;
use std::rt::Env;
use why_run::run;

/// The words that the program was started with, or none where one of them isn't text: the command is then refused.
fn words<R: Env + AllocGlobal>(rt: &R) -> Result<Vec<String>, NoMemory> {
    let mut words = Vec::new(rt.alloc());
    match env::args(rt) {
        Ok(args) => {
            for word in args {
                words.push(word)?;
            }
        }
        Err(error) if error.kind() == ErrorKind::OutOfMemory => return Err(NoMemory),
        Err(_) => {}
    }
    Ok(words)
}

/// The words as texts.
fn texts(alloc: Global, words: &[String]) -> Result<Vec<&str>, NoMemory> {
    let mut texts = Vec::new(alloc);
    for word in words {
        texts.push(word.as_str())?;
    }
    Ok(texts)
}

/// The status of a command for which there was no memory.
const NO_MEMORY: u8 = 9;

fn main(rt: HostRuntime) -> ExitCode {
    let Ok(words) = words(&rt) else {
        return ExitCode::from(NO_MEMORY);
    };
    let Ok(texts) = texts(rt.alloc(), &words) else {
        return ExitCode::from(NO_MEMORY);
    };
    let mut library = FileLibrary::new(&rt);
    let mut output = StderrNotes::new(rt.stdout());
    let mut notes = StderrNotes::new(rt.stderr());
    ExitCode::from(run(rt.alloc(), &texts, &mut library, &mut output, &mut notes))
}

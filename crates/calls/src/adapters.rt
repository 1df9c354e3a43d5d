// Tests of the adapters over real files and writers.
ghost use Rattle.std.specs.Prelude.{◌≡◌, false};

use outside::{
    Failed, Fetch, FileLibrary, FileSink, FrameSink, Library, Notes, StderrNotes, put_all, say_line,
};
use std::fs;
use std::test::Fail;

// Begins a frame of this name, puts all of the bytes, and ends it.
fn write<O: FrameSink>(frames: &mut O, name: &str, bytes: &[u8]) -> Result<(), Failed>
    requires { O.is_open frames.old ≡ false }
{
    frames.begin(name)?;
    put_all(frames, bytes)?;
    frames.end()
}

// Says a line to any notes.
fn say<N: Notes>(notes: &mut N, text: &str) {
    say_line(notes, text.as_bytes());
}

// Fetches from any library, and says how much came.
fn fetch<L: Library>(
    library: &mut L,
    name: &str,
    limit: u64,
    into: &mut Vec<u8>,
) -> (Fetch, usize) {
    into.clear();
    (library.fetch(name, limit, into), into.len())
}

#[test]
fn files_are_written_and_read_back(rt: HostRuntime) -> Result<(), Fail> {
    let name = "outside_test.ppm";
    let bytes = b"P6\n1 1\n255\n\xFF\x80\0";
    for (name, want) in [("no_such_folder/a.ppm", false), (name, true)] {
        assert_eq!(rt;
            write(&mut FileSink::new(&rt), name, bytes).is_ok(),
            want,
            "{name}"
        );
    }
    let mut library = FileLibrary::new(&rt);
    let mut into = Vec::new(rt.alloc());
    for (name, limit, want) in [
        (".", 14, (Fetch::Failed, 0)),
        ("no_such_file.ppm", 14, (Fetch::Missing, 0)),
        (name, 2, (Fetch::TooLong, 3)),
        (name, 14, (Fetch::Whole, 14)),
    ] {
        assert_eq!(rt;
            fetch(&mut library, name, limit, &mut into),
            want,
            "{name} at {limit}"
        );
    }
    assert_eq!(rt; into.as_slice(), bytes.as_slice());
    fs::remove_file(&rt, name).or(Err("remove"))?;
    Ok(())
}

#[test]
fn notes_reach_a_writer(rt: HostRuntime) -> Result<(), Fail> {
    let mut notes = StderrNotes::new(rt.stderr());
    say(&mut notes, "a.ppm: 4 shadings, 1 epochs\n");
    assert_eq!(rt; notes.line(b"usage\n"), Ok(()));
    Ok(())
}

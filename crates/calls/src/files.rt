// The forms of the outside in memory.
ghost use Rattle.std.specs.Prelude.{◌≡◌, false, OnOk};

use outside::{
    Entry, Failed, Fetch, FrameSink, Library, MemoryLibrary, MemoryNotes, MemorySink, Notes,
    put_all, say_line,
};
use std::test::Fail;

// Begins a frame of this name, puts all of the bytes, and ends it.
fn write<O: FrameSink>(frames: &mut O, name: &str, bytes: &[u8]) -> Result<(), Failed>
    requires { O.is_open frames.old ≡ false }
    ensures { OnOk result (O.is_open frames.new ≡ false) }
{
    frames.begin(name)?;
    put_all(frames, bytes)?;
    frames.end()
}

// Says a line to any notes.
fn say<N: Notes>(notes: &mut N, text: &str) {
    say_line(notes, text.as_bytes());
}

// Fetches from any library, and says how much came.
fn fetch<L: Library>(
    library: &mut L,
    name: &str,
    limit: u64,
    into: &mut Vec<u8>,
) -> (Fetch, usize) {
    into.clear();
    (library.fetch(name, limit, into), into.len())
}

#[test]
fn library_in_memory_answers_what_it_holds(rt: HostRuntime) -> Result<(), Fail> {
    let mut library = MemoryLibrary::new(rt.alloc());
    library.add("a.rib", b"old")?;
    library.add("a.rib", b"WorldBegin")?;
    library.fail_call(4);
    let mut into = Vec::new(rt.alloc());
    for (name, limit, want) in [
        ("a.rib", 9, (Fetch::TooLong, 10)),
        ("a.rib", 0, (Fetch::TooLong, 1)),
        ("b.sl", 10, (Fetch::Missing, 0)),
        ("a.rib", 10, (Fetch::Failed, 0)),
        ("a.rib", 10, (Fetch::Whole, 10)),
    ] {
        assert_eq!(rt;
            fetch(&mut library, name, limit, &mut into),
            want,
            "{name} at {limit}"
        );
    }
    assert_eq!(rt; into.as_slice(), b"WorldBegin".as_slice());
    Ok(())
}

// Over a sink that takes 8 bytes in one put, a frame of 17 bytes is five calls: begin, put, put, put, end. The name
// has 6 bytes, so the frame uses 24 bytes of the room.
#[test]
fn sink_in_memory_fails_where_it_must(rt: HostRuntime) -> Result<(), Fail> {
    let bytes = b"P6\n1 2\n255\n\xFF\0\0\xFF\0\0";
    for (room, n, entries, length, ended) in [
        (1000, 1, 0, 0, false),
        (1000, 2, 1, 0, false),
        (1000, 3, 1, 8, false),
        (1000, 4, 1, 16, false),
        (1000, 5, 1, 17, false),
        (24, 6, 1, 17, true),
        (23, 6, 1, 16, false),
        (7, 6, 1, 0, false),
        (6, 6, 0, 0, false),
    ] {
        let mut sink = MemorySink::new(rt.alloc(), room, 8)?;
        sink.fail_call(n);
        assert_eq!(rt;
            write(&mut sink, "é.ppm", bytes).is_ok(),
            ended,
            "{room}, {n}"
        );
        assert_eq!(rt; sink.entries(), entries, "{room}, {n}");
        if sink.entries() > 0 {
            let want = Entry {
                name: "é.ppm",
                bytes: &bytes[..length],
                ended,
            };
            assert_eq!(rt; sink.entry(0), want, "{room}, {n}");
        }
    }
    Ok(())
}

// Frames without a name or without bytes use one byte and what they have.
#[test]
fn frames_in_memory_stay_apart(rt: HostRuntime) -> Result<(), Fail> {
    let frames = [("", ""), ("", "ab"), ("cd", ""), ("e", "fgh"), ("", "")];
    let mut sink = MemorySink::new(rt.alloc(), 13, 2)?;
    for (name, bytes) in frames {
        assert!(rt; write(&mut sink, name, bytes.as_bytes()).is_ok());
    }
    assert!(rt; sink.begin("").is_err());
    assert_eq!(rt; sink.entries(), frames.len());
    for (n, (name, bytes)) in frames.iter().enumerate() {
        let want = Entry {
            name: *name,
            bytes: bytes.as_bytes(),
            ended: true,
        };
        assert_eq!(rt; sink.entry(n), want);
    }
    Ok(())
}

#[test]
fn notes_in_memory_keep_the_lines_that_fit(rt: HostRuntime) -> Result<(), Fail> {
    let mut notes = MemoryNotes::new(rt.alloc(), 12)?;
    notes.fail_call(4);
    for text in ["usage\n", "", "no memory\n", "a\n", "fault\n", "b"] {
        say(&mut notes, text);
    }
    assert_eq!(rt; notes.text(), b"usage\nfault\n".as_slice());
    Ok(())
}

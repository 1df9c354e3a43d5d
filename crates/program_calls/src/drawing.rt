// The top call: what a library or a sink does that fails, and files too long for a case.
ghost use Rattle.std.specs.Prelude.{◌≡◌, ◌≤◌};

use outside::{Failed, FrameSink, MemoryLibrary, MemoryNotes, MemorySink};
use render::run;
use std::alloc::{AllocError, Global};
use std::test::Fail;

pub(crate) const RED: &str = "Color [1 0 0] Patch \"bilinear\" \"P\" [-1 -1 1 1 -1 1 -1 1 1 1 1 1]";

const PATCH: &str = "Patch \"bilinear\" \"P\" [-1 -1 1 1 -1 1 -1 1 1 1 1 1]";

const PLAIN: &[u8] = b"surface m() { Ci = 1; Oi = 1; }";

pub(crate) const RED_PICTURE: &[u8] = b"P6\n2 2\n255\n\xff\0\0\xff\0\0\xff\0\0\xff\0\0";

/// A scene of two by two pixels with these requests in its world.
pub(crate) fn scene(alloc: Global, world: &str) -> Result<String, AllocError> {
    let head =
        "Format 2 2 1\nPixelSamples 1 1\nPixelFilter \"box\" 1 1\nDisplay \"a.ppm\" \"file\" \"rgb\"\n";
    format!(in alloc; "{head}WorldBegin\n{world}\nWorldEnd\n")
}

/// What came of a command.
#[derive(Drop)]
pub(crate) struct Outcome {
    pub(crate) status: u8,
    pub(crate) notes: Vec<u8>,
    pub(crate) entries: usize,
    /// The last entry's bytes, and whether it has ended.
    pub(crate) bytes: Vec<u8>,
    pub(crate) ended: bool,
}

/// A sink with this room that takes so many bytes at a time, and whose call of that number fails.
#[derive(Clone, Copy)]
pub(crate) struct SinkForm {
    pub(crate) room: usize,
    pub(crate) most: usize,
    pub(crate) fails: u64,
}

/// Carries out a command with these files in the library, whose call of that number fails, and a sink of this form.
pub(crate) fn answered(
    alloc: Global,
    words: &[&str],
    files: &[(&str, &[u8])],
    library_fails: u64,
    form: SinkForm,
) -> Result<Outcome, Fail>
    requires { 1 ≤ form.most }
{
    let mut library = MemoryLibrary::new(alloc);
    for (name, bytes) in files {
        library.add(name, bytes).or(Err("memory"))?;
    }
    library.fail_call(library_fails);
    let mut sink = MemorySink::new(alloc, form.room, form.most).or(Err("memory"))?;
    sink.fail_call(form.fails);
    let mut notes = MemoryNotes::new(alloc, 100).or(Err("memory"))?;
    let status = run(alloc, words, &mut library, &mut sink, &mut notes);
    let entries = sink.entries();
    let mut outcome = Outcome {
        status,
        notes: Vec::from_slice(alloc, notes.text())?,
        entries,
        bytes: Vec::new(alloc),
        ended: false,
    };
    if entries > 0 {
        let entry = sink.entry(entries - 1);
        outcome.bytes.extend_from_slice(entry.bytes)?;
        outcome.ended = entry.ended;
    }
    Ok(outcome)
}

/// Carries out an action on `s.rib`, with its text and other files in the library, as `answered` does.
fn carried_out(
    alloc: Global,
    action: &str,
    text: &str,
    files: &[(&str, &[u8])],
    library_fails: u64,
    form: SinkForm,
) -> Result<Outcome, Fail>
    requires { 1 ≤ form.most }
{
    let mut held: Vec<(&str, &[u8])> = Vec::new(alloc);
    held.push(("s.rib", text.as_bytes()))?;
    held.extend_from_slice(files)?;
    answered(
        alloc,
        &["reyes", action, "s.rib"],
        &held,
        library_fails,
        form,
    )
}

#[test]
fn a_picture_with_ample_memory(rt: HostRuntime) -> Result<(), Fail> {
    let alloc = rt.alloc();
    let text = scene(alloc, RED)?;
    let found = carried_out(
        alloc,
        "render",
        text.as_str(),
        &[],
        0,
        SinkForm {
            room: 1000,
            most: 1000,
            fails: 0,
        },
    )?;
    assert_eq!(rt; (found.status, found.entries, found.ended), (0, 1, true));
    assert_eq!(rt; found.bytes.as_slice(), RED_PICTURE);
    assert_eq!(rt; found.notes.as_slice(), b"".as_slice());
    Ok(())
}

#[test]
fn each_failing_call_of_the_sink_is_answered(rt: HostRuntime) -> Result<(), Fail> {
    let alloc = rt.alloc();
    let text = scene(alloc, RED)?;
    // by pieces of eight bytes one call begins the frame, two put its header, two its pixels, and one ends it
    let rows = [
        (1, 8, 0, false, 0),
        (2, 8, 1, false, 0),
        (3, 8, 1, false, 8),
        (4, 8, 1, false, 11),
        (5, 8, 1, false, 19),
        (6, 8, 1, false, 23),
        (7, 0, 1, true, 23),
    ];
    for (fails, status, entries, ended, bytes) in rows {
        let found = carried_out(
            alloc,
            "render",
            text.as_str(),
            &[],
            0,
            SinkForm {
                room: 1000,
                most: 8,
                fails,
            },
        )?;
        assert_eq!(rt;
            (found.status, found.entries, found.ended),
            (status, entries, ended),
            "call {fails}"
        );
        assert_eq!(rt;
            found.bytes.as_slice(),
            &RED_PICTURE[..bytes],
            "call {fails}"
        );
        let note: &[u8] = if status == 8 { b"write fault\n" } else { b"" };
        assert_eq!(rt; found.notes.as_slice(), note);
    }
    Ok(())
}

#[test]
fn a_sink_may_take_a_byte_at_a_time(rt: HostRuntime) -> Result<(), Fail> {
    let alloc = rt.alloc();
    let text = scene(alloc, RED)?;
    // an entry uses the length of its name and one byte more, and its bytes
    let rows = [
        (1000, 0, 23, true),
        (29, 0, 23, true),
        (28, 8, 22, false),
        (10, 8, 4, false),
    ];
    for (room, status, bytes, ended) in rows {
        let found = carried_out(
            alloc,
            "render",
            text.as_str(),
            &[],
            0,
            SinkForm {
                room,
                most: 1,
                fails: 0,
            },
        )?;
        assert_eq!(rt; (found.status, found.ended), (status, ended));
        assert_eq!(rt; found.bytes.as_slice(), &RED_PICTURE[..bytes]);
    }
    Ok(())
}

#[test]
fn the_second_frame_fails_behind_the_first(rt: HostRuntime) -> Result<(), Fail> {
    let alloc = rt.alloc();
    let frame = scene(alloc, RED)?;
    let text = format!(in alloc; "FrameBegin 1\n{frame}FrameEnd\nFrameBegin 2\n{frame}FrameEnd\n")?;
    // a frame is begun, put in two calls and ended; the second one's end fails
    let found = carried_out(
        alloc,
        "render",
        text.as_str(),
        &[],
        0,
        SinkForm {
            room: 1000,
            most: 1000,
            fails: 8,
        },
    )?;
    assert_eq!(rt; (found.status, found.entries, found.ended), (8, 2, false));
    assert_eq!(rt; found.bytes.as_slice(), RED_PICTURE);
    Ok(())
}

#[test]
fn each_failing_fetch_is_answered(rt: HostRuntime) -> Result<(), Fail> {
    let alloc = rt.alloc();
    let world = format!(in alloc;
        "Surface \"n\" Surface \"m\" {PATCH}\nSurface \"matte\" {PATCH}\nSurface \"m\" {PATCH}\n"
    )?;
    let text = scene(alloc, world.as_str())?;
    // the scene, m and the file that matte hasn't, each once; n is used by no primitive
    let rows = [(1, 7), (2, 7), (3, 7), (4, 0)];
    for (fails, status) in rows {
        let found = carried_out(
            alloc,
            "check",
            text.as_str(),
            &[("m.sl", PLAIN)],
            fails,
            SinkForm {
                room: 100,
                most: 8,
                fails: 0,
            },
        )?;
        assert_eq!(rt; (found.status, found.entries), (status, 0), "fetch {fails}");
        let note: &[u8] = if status == 7 { b"read fault\n" } else { b"" };
        assert_eq!(rt; found.notes.as_slice(), note);
    }
    Ok(())
}

/// A text that stands so many times behind a front, and an end.
fn repeated(
    alloc: Global,
    front: &[u8],
    middle: &[u8],
    times: u32,
    end: &[u8],
) -> Result<Vec<u8>, AllocError> {
    let mut text = Vec::from_slice(alloc, front)?;
    for _ in 0..times {
        text.extend_from_slice(middle)?;
    }
    text.extend_from_slice(end)?;
    Ok(text)
}

#[test]
fn shaders_have_limits(rt: HostRuntime) -> Result<(), Fail> {
    let alloc = rt.alloc();
    let world = format!(in alloc; "Surface \"m\" {PATCH}")?;
    let text = scene(alloc, world.as_str())?;
    let file = repeated(alloc, b"", b"\n", 1048545, PLAIN)?;
    let longer = repeated(alloc, b"", b"\n", 1048546, PLAIN)?;
    // the shader is a node, and so is each semicolon
    let nodes = repeated(alloc, b"surface m() {", b";", 65535, b"}")?;
    let more = repeated(alloc, b"\nsurface m() {", b";", 65536, b"}")?;
    let rows: [(&[u8], u8, &[u8]); 4] = [
        (&file, 0, b""),
        (&longer, 5, b"m.sl:1: M10\n"),
        (&nodes, 0, b""),
        (&more, 5, b"m.sl:2: M8\n"),
    ];
    for (shader, status, note) in rows {
        let found = carried_out(
            alloc,
            "check",
            text.as_str(),
            &[("m.sl", shader)],
            0,
            SinkForm {
                room: 100,
                most: 8,
                fails: 0,
            },
        )?;
        assert_eq!(rt; found.status, status);
        assert_eq!(rt; found.notes.as_slice(), note);
    }
    Ok(())
}

/// A text of 2^24 blanks, by doubling.
fn blanks(alloc: Global) -> Result<String, AllocError> {
    let mut text = String::from_str(alloc, " ")?;
    for _ in 0..24 {
        let half = String::from_str(alloc, text.as_str())?;
        text.push_str(half.as_str())?;
    }
    Ok(text)
}

#[test]
fn a_scene_that_is_too_long_is_refused(rt: HostRuntime) -> Result<(), Fail> {
    let alloc = rt.alloc();
    let mut text = blanks(alloc)?;
    let found = carried_out(
        alloc,
        "render",
        text.as_str(),
        &[],
        0,
        SinkForm {
            room: 100,
            most: 8,
            fails: 0,
        },
    )?;
    assert_eq!(rt; (found.status, found.entries), (0, 0));
    text.push_str(" ")?;
    let found = carried_out(
        alloc,
        "render",
        text.as_str(),
        &[],
        0,
        SinkForm {
            room: 100,
            most: 8,
            fails: 0,
        },
    )?;
    assert_eq!(rt; (found.status, found.entries), (5, 0));
    assert_eq!(rt; found.notes.as_slice(), b"s.rib:1: M10\n".as_slice());
    Ok(())
}

/// A sink that takes all but one call, and counts the calls that come behind that one.
#[derive(Drop)]
struct CountingSink {
    is_open: bool,
    calls_left: u64,
    failed: bool,
    asked_again: u64,
}

impl CountingSink {
    // Counts a call, and says whether it fails.
    fn is_failing(&mut self) -> bool
        ensures open { self.new.is_open ≡ self.old.is_open }
    {
        if self.failed {
            self.asked_again = self.asked_again.saturating_add(1);
        } else if self.calls_left == 0 {
            self.failed = true;
            return true;
        } else {
            self.calls_left -= 1;
        }
        false
    }
}

impl FrameSink for CountingSink {
    ghost use Rattle.std.specs.Prelude.{None};
    ghost use Rattle.std.specs.Prelude.{◌^◌, ◌-◌};

    ghost written = { λ s. None };

    ghost is_open = { λ s. s.is_open };

    // a count at its last value, which may always be told
    ghost faults = { λ s. 2 ^ 64 - 1 };

    fn begin(&mut self, name: &str) -> Result<(), Failed> {
        let _name = name;
        if self.is_failing() {
            return Err(Failed);
        }
        self.is_open = true;
        Ok(())
    }

    fn put(&mut self, piece: &[u8]) -> Result<usize, Failed> {
        if self.is_failing() {
            return Err(Failed);
        }
        Ok(piece.len())
    }

    fn end(&mut self) -> Result<(), Failed> {
        if self.is_failing() {
            return Err(Failed);
        }
        self.is_open = false;
        Ok(())
    }
}

#[test]
fn a_sink_that_failed_is_asked_no_more(rt: HostRuntime) -> Result<(), Fail> {
    let alloc = rt.alloc();
    let frame = scene(alloc, RED)?;
    let text = format!(in alloc; "FrameBegin 1\n{frame}FrameEnd\nFrameBegin 2\n{frame}FrameEnd\n")?;
    // four calls for each of two frames
    let rows = [
        (0, 8),
        (1, 8),
        (2, 8),
        (3, 8),
        (4, 8),
        (5, 8),
        (6, 8),
        (7, 8),
        (8, 0),
    ];
    for (calls, status) in rows {
        let mut library = MemoryLibrary::new(alloc);
        library.add("s.rib", text.as_bytes()).or(Err("memory"))?;
        let mut sink = CountingSink {
            is_open: false,
            calls_left: calls,
            failed: false,
            asked_again: 0,
        };
        let mut notes = MemoryNotes::new(alloc, 100).or(Err("memory"))?;
        let words = ["reyes", "render", "s.rib"];
        let answer = run(alloc, &words, &mut library, &mut sink, &mut notes);
        assert_eq!(rt;
            (answer, sink.asked_again, sink.failed),
            (status, 0, status == 8),
            "{calls} calls"
        );
    }
    Ok(())
}

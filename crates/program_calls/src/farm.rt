// The top call's actions `part` and `join` over a library or a sink that fails.
ghost use Rattle.std.specs.Prelude.{◌≡◌, ◌≤◌};

use crate::drawing::{RED, RED_PICTURE, SinkForm, answered, scene};
use std::alloc::Global;
use std::test::Fail;

/// The command that draws the whole frame of `s.rib` as the only part of it.
const PART: [&str; 7] = ["reyes", "part", "s.rib", "--part", "0", "--of", "1"];

const JOIN: [&str; 5] = ["reyes", "join", "a.ppm", "--of", "1"];

/// The bytes of the frame's only part.
fn only_part(alloc: Global) -> Result<Vec<u8>, Fail> {
    let text = scene(alloc, RED)?;
    let files = [("s.rib", text.as_bytes())];
    let found = answered(
        alloc,
        &PART,
        &files,
        0,
        SinkForm {
            room: 1000,
            most: 1000,
            fails: 0,
        },
    )?;
    Ok(found.bytes)
}

#[test]
fn each_failing_call_of_the_sink_is_answered_by_part(rt: HostRuntime) -> Result<(), Fail> {
    let alloc = rt.alloc();
    let text = scene(alloc, RED)?;
    let part = only_part(alloc)?;
    let files = [("s.rib", text.as_bytes())];
    // by pieces of eight bytes one call begins the part, four put its header, two its only bucket, and one ends it
    let rows = [
        (1, 8, 0, false, 0),
        (2, 8, 1, false, 0),
        (3, 8, 1, false, 8),
        (4, 8, 1, false, 16),
        (5, 8, 1, false, 24),
        (6, 8, 1, false, 32),
        (7, 8, 1, false, 40),
        (8, 8, 1, false, 48),
        (9, 0, 1, true, 48),
    ];
    for (fails, status, entries, ended, bytes) in rows {
        let found = answered(
            alloc,
            &PART,
            &files,
            0,
            SinkForm {
                room: 1000,
                most: 8,
                fails,
            },
        )?;
        assert_eq!(rt;
            (found.status, found.entries, found.ended),
            (status, entries, ended),
            "call {fails}"
        );
        assert_eq!(rt;
            found.bytes.as_slice(),
            &part[..bytes.min(part.len())],
            "call {fails}"
        );
        let note: &[u8] = if status == 8 { b"write fault\n" } else { b"" };
        assert_eq!(rt; found.notes.as_slice(), note);
    }
    Ok(())
}

#[test]
fn each_failing_call_of_the_sink_is_answered_by_join(rt: HostRuntime) -> Result<(), Fail> {
    let alloc = rt.alloc();
    let part = only_part(alloc)?;
    let files: [(&str, &[u8]); 1] = [("a.ppm.0.part", &part)];
    // one call begins the picture, three put it, and one ends it
    let rows = [
        (1, 8, 0, false, 0),
        (2, 8, 1, false, 0),
        (3, 8, 1, false, 8),
        (4, 8, 1, false, 16),
        (5, 8, 1, false, 23),
        (6, 0, 1, true, 23),
    ];
    for (fails, status, entries, ended, bytes) in rows {
        let found = answered(
            alloc,
            &JOIN,
            &files,
            0,
            SinkForm {
                room: 1000,
                most: 8,
                fails,
            },
        )?;
        assert_eq!(rt;
            (found.status, found.entries, found.ended),
            (status, entries, ended),
            "call {fails}"
        );
        assert_eq!(rt;
            found.bytes.as_slice(),
            &RED_PICTURE[..bytes],
            "call {fails}"
        );
        let note: &[u8] = if status == 8 { b"write fault\n" } else { b"" };
        assert_eq!(rt; found.notes.as_slice(), note);
    }
    Ok(())
}

#[test]
fn each_failing_fetch_of_a_part_is_answered(rt: HostRuntime) -> Result<(), Fail> {
    let alloc = rt.alloc();
    let part = only_part(alloc)?;
    let files: [(&str, &[u8]); 1] = [("a.ppm.0.part", &part)];
    for (fails, status, entries) in [(1, 7, 0), (2, 0, 1)] {
        let found = answered(
            alloc,
            &JOIN,
            &files,
            fails,
            SinkForm {
                room: 1000,
                most: 1000,
                fails: 0,
            },
        )?;
        assert_eq!(rt;
            (found.status, found.entries),
            (status, entries),
            "fetch {fails}"
        );
        let note: &[u8] = if status == 7 { b"read fault\n" } else { b"" };
        assert_eq!(rt; found.notes.as_slice(), note);
    }
    Ok(())
}

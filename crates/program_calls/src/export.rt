// A scene as exporters write it: its text, ended anywhere, and drawn over a library that fails.
use crate::drawing::{Outcome, SinkForm, answered};
use std::alloc::Global;
use std::test::Fail;

const EXPORT: &[u8] = b"##RenderMan RIB-Structure 1.0
version 3.03
Option \"limits\" \"bucketsize\" [16 16]
Display \"teapot.ppm\" \"file\" \"rgba\"
Format 320 240 1
ShadingRate 1
Projection \"perspective\" \"fov\" [45]
Clipping 0.1 1e38
Translate 0 0 5
Rotate -30 1 0 0
WorldBegin
LightSource \"ambientlight\" 1 \"intensity\" [0.2]
LightSource \"distantlight\" 2 \"from\" [1 1 -1] \"to\" [0 0 0]
AttributeBegin
Color [0.8 0.2 0.2]
Surface \"plastic\" \"Kd\" [0.7] \"Ks\" 0.3 \"roughness\" [0.1]
Basis \"b-spline\" 1 \"b-spline\" 1
PatchMesh \"bicubic\" 5 \"nonperiodic\" 4 \"nonperiodic\" \"P\" [-2 0 -2 -1 0 -2 0 0 -2 1 0 -2 2 0 -2 -2 0 -1 -1 0 -1 0 0 -1 1 0 -1 2 0 -1 -2 0 1 -1 0 1 0 0 1 1 0 1 2 0 1 -2 0 2 -1 0 2 0 0 2 1 0 2 2 0 2]
AttributeEnd
Surface \"matte\"
Polygon \"P\" [-50 -1 -50 50 -1 -50 50 -1 50 -50 -1 50]
WorldEnd
";

/// Carries out an action on a scene of these bytes, where the fetch of that number fails.
fn acted(alloc: Global, action: &str, text: &[u8], fails: u64) -> Result<Outcome, Fail> {
    answered(
        alloc,
        &["reyes", action, "s.rib"],
        &[("s.rib", text)],
        fails,
        SinkForm {
            room: 240000,
            most: 65536,
            fails: 0,
        },
    )
}

#[test]
fn an_export_may_end_anywhere(rt: HostRuntime) -> Result<(), Fail> {
    let alloc = rt.alloc();
    let mut front = Vec::new(alloc);
    for byte in EXPORT {
        let found = acted(alloc, "check", &front, 0)?;
        let count = front.len();
        assert!(rt; found.status == 0 || found.status == 3, "{count} bytes");
        assert_eq!(rt; found.entries, 0);
        front.push(*byte)?;
    }
    Ok(())
}

#[test]
fn each_failing_fetch_of_an_export_is_answered(rt: HostRuntime) -> Result<(), Fail> {
    let alloc = rt.alloc();
    // the scene, plastic, the two lights and matte
    for fails in 1..6 {
        let found = acted(alloc, "render", EXPORT, fails)?;
        assert_eq!(rt; (found.status, found.entries), (7, 0), "fetch {fails}");
        assert_eq!(rt; found.notes.as_slice(), b"read fault\n".as_slice());
    }
    let found = acted(alloc, "render", EXPORT, 6)?;
    assert_eq!(rt; (found.status, found.entries, found.ended), (0, 1, true));
    assert_eq!(rt; found.bytes.len(), 230415);
    assert!(rt; found.bytes.starts_with(b"P6\n320 240\n255\n"));
    Ok(())
}

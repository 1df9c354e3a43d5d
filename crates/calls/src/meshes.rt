// Meshes and polygons as patches. The control points were computed from the matrices of the bases (RenderMan Interface 3.2, section
// 5.2), exactly, and rounded down once.
use crate::texts::{triples, written};
use mesh_basis::{Basis, Shape, mesh, polygon};
use patches::{Patch, Piece, Surface};
use std::alloc::Global;
use std::test::Fail;

// The control points of patches, those of one behind those of another.
fn controls(alloc: Global, patches: &[Patch]) -> Result<String, Fail> {
    let mut text = String::new(alloc);
    for patch in patches {
        if !text.is_empty() {
            text.push_str("; ")?;
        }
        let net = patch.net(&Piece::whole(0));
        text.push_str(written(alloc, &net)?.as_str())?;
    }
    Ok(text)
}

// The patches of a mesh of these points, or the fault.
fn meshed(alloc: Global, shape: Shape, points: &str) -> Result<String, Fail> {
    if shape.step_u == 0 || shape.step_v == 0 {
        return Err("a step")?;
    }
    let points = triples(alloc, points)?;
    match mesh(alloc, &points, &shape) {
        Ok(patches) => controls(alloc, &patches),
        Err(fault) => Ok(format!(in alloc; "{fault:?}")?),
    }
}

fn bilinear(nu: u32, nv: u32, periodic_u: bool) -> Shape {
    Shape {
        bicubic: false,
        nu,
        nv,
        periodic_u,
        periodic_v: false,
        basis_u: Basis::Bezier,
        basis_v: Basis::Bezier,
        step_u: 3,
        step_v: 3,
    }
}

// A basis with its step, along u and along v.
fn bicubic(nu: u32, u: (Basis, u32), v: (Basis, u32), periodic_u: bool) -> Shape {
    Shape {
        bicubic: true,
        nu,
        nv: 4,
        periodic_u,
        periodic_v: false,
        basis_u: u.0,
        basis_v: v.0,
        step_u: u.1,
        step_v: v.1,
    }
}

#[test]
fn bilinear_meshes(rt: HostRuntime) -> Result<(), Fail> {
    let points =
        "0 0 196608, 65536 0 196607, 131072 0 196606, 1 65536 196608, 65537 65536 196607, 131073 65536 196606";
    let want =
        "0 0 196608, 65536 0 196607, 1 65536 196608, 65537 65536 196607; 65536 0 196607, 131072 0 196606, 65537 65536 196607, \
         131073 65536 196606; 131072 0 196606, 0 0 196608, 131073 65536 196606, 1 65536 196608";
    assert_eq!(rt;
        meshed(rt.alloc(), bilinear(3, 2, true), points)?.as_str(),
        want
    );
    for (nu, nv, points) in [
        (
            3,
            2,
            "0 0 196608, 65536 0 196607, 131072 0 196606, 1 65536 196608, 65537 65536 196607",
        ),
        (3, 1, "0 0 196608, 65536 0 196607, 131072 0 196606"),
    ] {
        let refused = meshed(rt.alloc(), bilinear(nu, nv, false), points)?;
        assert_eq!(rt; refused.as_str(), "G5");
    }
    Ok(())
}

#[test]
fn spline_meshes(rt: HostRuntime) -> Result<(), Fail> {
    let (spline, rom) = (Basis::BSpline, Basis::CatmullRom);
    let points =
        "0 0 -1, 65536 0 7, 131072 0 -1, 196608 0 7, 262144 0 -1, 0 65536 7, 65536 65536 -1, 131072 65536 7, 196608 65536 -1, \
         262144 65536 7, 0 131072 -1, 65536 131072 7, 131072 131072 -1, 196608 131072 7, 262144 131072 -1, 0 196608 7, 65536 \
         196608 -1, 131072 196608 7, 196608 196608 -1, 262144 196608 7";
    let want =
        "65536 65536 1, 87381 65536 1, 109226 65536 4, 131072 65536 4, 65536 87381 1, 87381 87381 1, 109226 87381 4, 131072 \
         87381 4, 65536 109226 4, 87381 109226 4, 109226 109226 1, 131072 109226 1, 65536 131072 4, 87381 131072 4, 109226 \
         131072 1, 131072 131072 1; 131072 65536 4, 152917 65536 4, 174762 65536 1, 196608 65536 1, 131072 87381 4, 152917 \
         87381 4, 174762 87381 1, 196608 87381 1, 131072 109226 1, 152917 109226 1, 174762 109226 4, 196608 109226 4, 131072 \
         131072 1, 152917 131072 1, 174762 131072 4, 196608 131072 4";
    assert_eq!(rt;
        meshed(rt.alloc(), bicubic(5, (spline, 1), (rom, 1), false), points)?.as_str(),
        want
    );
    let part = meshed(rt.alloc(), bicubic(5, (spline, 3), (rom, 1), false), points)?;
    assert_eq!(rt; part.as_str(), "G5");
    Ok(())
}

#[test]
fn a_closed_mesh(rt: HostRuntime) -> Result<(), Fail> {
    let points =
        "0 0 0, 100 0 1, 400 0 2, 900 0 3, 1600 0 4, 2500 0 5, 0 0 7, 100 10 8, 400 20 9, 900 30 10, 1600 40 11, 2500 50 12, 0 \
         0 28, 100 20 29, 400 40 30, 900 60 31, 1600 80 32, 2500 100 33, 0 0 63, 100 30 64, 400 60 65, 900 90 66, 1600 120 67, \
         2500 150 68";
    let want =
        "0 0 63, 100 30 64, 400 60 65, 900 90 66, 0 0 72, 133 36 73, 533 73 75, 1200 110 76, 0 0 84, 200 46 86, 800 93 88, 1800 \
         140 90, 0 0 98, 400 60 102, 1600 120 106, 3600 180 110; 900 90 66, 1600 120 67, 2500 150 68, 0 0 63, 1200 110 76, 2133 \
         146 77, 3333 183 79, 0 0 72, 1800 140 90, 3200 186 92, 5000 233 94, 0 0 84, 3600 180 110, 6400 240 114, 10000 300 118, \
         0 0 98";
    assert_eq!(rt;
        meshed(
            rt.alloc(),
            bicubic(6, (Basis::Bezier, 3), (Basis::Power, 4), true),
            points
        )?
        .as_str(),
        want
    );
    Ok(())
}

#[test]
fn a_mesh_of_tangents(rt: HostRuntime) -> Result<(), Fail> {
    let points =
        "0 0 -5, 1000 1 -5, 2000 2 -5, 3000 3 -5, -77 333 -5, 923 334 536870912, 1923 335 -5, 2923 336 -5, -154 666 -5, 846 667 \
         -5, 1846 668 -5, 2846 669 -5, -231 999 -5, 769 1000 -5, 1769 1001 -5, 2769 1002 -5";
    let want =
        "0 0 -5, 333 0 -7, 1000 1 -4, 2000 2 -5, -26 111 -7, 410 148 59652315, 1316 75 -5, 2641 113 -7, -77 333 -4, 119 444 -5, \
         615 222 -3, 1256 334 -4, -154 666 -5, 128 888 -7, 897 445 -4, 1846 668 -5";
    assert_eq!(rt;
        meshed(
            rt.alloc(),
            bicubic(4, (Basis::Hermite, 2), (Basis::Hermite, 2), false),
            points
        )?
        .as_str(),
        want
    );
    Ok(())
}

// The points may lie at the limit, and so may the control points that are made of them.
#[test]
fn points_that_are_too_far(rt: HostRuntime) -> Result<(), Fail> {
    let near =
        "1073741824 -1073741824 0, 1073741824 -1073741824 0, 1073741824 -1073741824 0, 1073741824 -1073741824 0";
    let far =
        "1073741824 -1073741824 0, 1073741824 -1073741824 0, 1073741824 -1073741824 0, 1073741825 -1073741824 0";
    let made =
        "1073741824 0 0, 1073741824 0 0, 0 0 0, 0 0 0, 1073741824 0 0, 1073741824 0 0, 0 0 0, 0 0 0, 1073741824 0 0, 1073741824 \
         0 0, 0 0 0, 0 0 0, 1073741824 0 0, 1073741824 0 0, 0 0 0, 0 0 0";
    assert_eq!(rt;
        meshed(rt.alloc(), bilinear(2, 2, false), near)?.as_str(),
        near
    );
    assert_eq!(rt;
        meshed(rt.alloc(), bilinear(2, 2, false), far)?.as_str(),
        "M7"
    );
    let tangents = bicubic(4, (Basis::Hermite, 2), (Basis::Bezier, 3), false);
    assert_eq!(rt; meshed(rt.alloc(), tangents, made)?.as_str(), "M7");
    Ok(())
}

// The pieces of a polygon of these points and its normal, or the fault.
fn polygon_of(alloc: Global, points: &str) -> Result<String, Fail> {
    let points = triples(alloc, points)?;
    if points.len() > 64 {
        return Err("too many points")?;
    }
    match polygon(alloc, &points) {
        Ok((pieces, normal)) => {
            let mut text = controls(alloc, &pieces)?;
            text.push_str(" | ")?;
            text.push_str(written(alloc, &[normal])?.as_str())?;
            Ok(text)
        }
        Err(fault) => Ok(format!(in alloc; "{fault:?}")?),
    }
}

#[test]
fn polygons(rt: HostRuntime) -> Result<(), Fail> {
    for (points, want) in [
        (
            "0 0 0, 65536 0 0, 131072 65536 0, 65536 131072 0, 0 131072 0",
            "0 0 0, 65536 0 0, 65536 131072 0, 131072 65536 0; 0 0 0, 65536 131072 0, 0 131072 0, 0 131072 0 | 0 0 65536",
        ),
        (
            "0 0 0, 262144 0 196608, 262144 327680 196608",
            "0 0 0, 262144 0 196608, 262144 327680 196608, 262144 327680 196608 | -39322 0 52428",
        ),
        (
            "0 0 65536, 0 65536 65536, 65536 65536 65536, 65536 0 65536",
            "0 0 65536, 0 65536 65536, 65536 0 65536, 65536 65536 65536 | 0 0 -65536",
        ),
        (
            "1 2 3, 5 2 9, 5 7 9, 3 11 7, -4 9 0, -4 4 1",
            "1 2 3, 5 2 9, 3 11 7, 5 7 9; 1 2 3, 3 11 7, -4 4 1, -4 9 0 | -45732 -4682 46811",
        ),
        ("0 0 0, 1 1 1, 2 2 2", "0 0 0, 1 1 1, 2 2 2, 2 2 2 | 0 0 0"),
        ("0 0 0, 1 1 1", "G5"),
        (
            "0 0 0, 1073741824 0 0, 0 1073741824 0, 0 0 1073741825",
            "M7",
        ),
        (
            "0 0 0, 1073741824 0 0, 0 -1073741824 0",
            "0 0 0, 1073741824 0 0, 0 -1073741824 0, 0 -1073741824 0 | 0 0 -65536",
        ),
    ] {
        assert_eq!(rt; polygon_of(rt.alloc(), points)?.as_str(), want);
    }
    Ok(())
}

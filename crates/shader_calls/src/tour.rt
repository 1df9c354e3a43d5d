// The numbers of docs/TOUR.md: the scene of examples/tour.rib from its bytes to its pixels. They were computed from the formulas by a
// program that shares nothing with this one. The bytes of the picture are a stored case of `conformance`.
ghost use Rattle.std.specs.Prelude.{◌<◌};
ghost use Rattle.hider.specs.CellValues.{values_of};

use crate::shading::Texts;
use bound_split::{Walk, halves};
use bumpalo::Bump;
use calls::texts::written;
use filter_ppm::{Sums, pixel_levels, weight};
use fixed_math::{Num, Vec3};
use hider::{Cell, CellCorner, Cells, GridCells, Quad, Tile, covers, quad_of, sample_at};
use patches::{Dyadic, Piece, Surface};
use rib_lex::{TokenKind, tokens};
use rib_reader::{Arg, Values, requests};
use scene_state::Options;
use std::alloc::Global;
use std::test::Fail;
use transforms::Camera;

const SCENE: &[u8] = b"# The scene of docs/TOUR.md
Format 32 32 1
PixelSamples 2 2
PixelFilter \"triangle\" 2 2
Display \"tour.ppm\" \"file\" \"rgb\"
Projection \"perspective\" \"fov\" [90]
WorldBegin
Translate 0 0 2
Surface \"fade\"
Patch \"bilinear\" \"P\" [-2 -2 0  2 -2 0  -2 2 0  2 2 2]
WorldEnd
";

const FADE: &[u8] = b"/* Red grows along u, green along v. */
surface fade() { Ci = color (u, v, 0.25); Oi = 1; }
";

fn tour() -> Texts<'static> {
    Texts {
        scene: SCENE,
        file: "fade.sl",
        shader: FADE,
    }
}

#[test]
fn forty_six_tokens(rt: HostRuntime) -> Result<(), Fail> {
    let tokens = tokens(rt.alloc(), SCENE)?;
    assert_eq!(rt; tokens.len(), 46);
    for (token, name, line) in [
        (tokens.first(), "Format", 2),
        (tokens.last(), "WorldEnd", 11),
    ] {
        let token = token.ok_or("a token")?;
        assert_eq!(rt; token.line, line);
        assert!(rt; matches!(&token.kind, TokenKind::Name(it) if it.as_str() == name));
    }
    Ok(())
}

#[test]
fn ten_requests(rt: HostRuntime) -> Result<(), Fail> {
    let requests = requests(rt.alloc(), &tokens(rt.alloc(), SCENE)?)?;
    assert_eq!(rt; requests.len(), 10);
    let patch = requests.get(8).ok_or("a patch")?;
    assert!(rt; matches!(patch.args.as_slice(), [Arg::Str(it)] if it.as_str() == "bilinear"));
    let [points] = patch.params.as_slice() else {
        return Err("a list")?;
    };
    assert!(rt; matches!(&points.values, Values::Numbers(it) if it.len() == 12));
    Ok(())
}

#[test]
fn corners_in_camera_space(rt: HostRuntime) -> Result<(), Fail> {
    let accepted = tour().accepted(rt.alloc())?;
    let frame = accepted.scene.frames.as_slice().first().ok_or("a frame")?;
    let prim = frame.prims.as_slice().first().ok_or("a primitive")?;
    let mut corners = Vec::new(rt.alloc());
    for (u, v) in [(0, 0), (4096, 0), (0, 4096), (4096, 4096)] {
        corners.push(prim.patch.point(Dyadic::new(u), Dyadic::new(v)))?;
    }
    assert_eq!(rt;
        written(rt.alloc(), &corners)?.as_str(),
        "-131072 -131072 131072, 131072 -131072 131072, -131072 131072 131072, 131072 131072 262144"
    );
    Ok(())
}

#[test]
fn four_leaves(rt: HostRuntime) -> Result<(), Fail> {
    let accepted = tour().accepted(rt.alloc())?;
    let frame = accepted.scene.frames.as_slice().first().ok_or("a frame")?;
    let prim = frame.prims.as_slice().first().ok_or("a primitive")?;
    let mut walk = Walk::new(Piece::whole(0));
    for (i, j) in [(0, 0), (0, 1), (1, 0), (1, 1)] {
        let leaf = walk
            .next(&prim.patch, &frame.camera, Num::sat(65536), Num::sat(0))
            .ok_or("a leaf")?;
        assert_eq!(rt; (leaf.p, leaf.q, leaf.piece.a, leaf.piece.b), (4, 4, 1, 1));
        assert_eq!(rt; (leaf.piece.i, leaf.piece.j), (i, j));
    }
    let last = walk.next(&prim.patch, &frame.camera, Num::sat(65536), Num::sat(0));
    assert!(rt; last.is_none());
    Ok(())
}

/// The four leaves of the patch.
fn leaves() -> [Piece; 4] {
    let [left, right] = halves(&Piece::whole(0), true);
    let [a, b] = halves(&left, false);
    let [c, d] = halves(&right, false);
    [a, b, c, d]
}

#[test]
fn the_grid_of_the_first_leaf(rt: HostRuntime) -> Result<(), Fail> {
    let [first, ..] = leaves();
    let arena = Bump::new(rt.alloc());
    let grid = tour().grid(&arena, rt.alloc(), &first, 4, 4)?;
    assert_eq!(rt; (grid.columns, grid.rows, grid.p.len()), (17, 17, 289));
    for (n, want) in [
        (0, "-131072 -131072 131072, 0 0 16384"),
        (288, "0 0 163840, 32768 32768 16384"),
        (177, "-73728 -49152 140032, 14336 20480 16384"),
        (178, "-65536 -49152 141312, 16384 20480 16384"),
        (195, "-65536 -40960 142336, 16384 22528 16384"),
        (194, "-73728 -40960 140928, 14336 22528 16384"),
    ] {
        let point = *grid.p.get(n).ok_or("a point")?;
        let colour = *grid.ci.get(n).ok_or("a colour")?;
        assert_eq!(rt; written(rt.alloc(), &[point, colour])?.as_str(), want);
    }
    Ok(())
}

// The camera and the options of the frame.
fn look(alloc: Global) -> Result<(Camera, Options), Fail> {
    let accepted = tour().accepted(alloc)?;
    let frame = accepted.scene.frames.as_slice().first().ok_or("a frame")?;
    Ok((frame.camera, frame.options))
}

// A corner of a micropolygon of a grid.
fn corner_of(cells: &GridCells<'_>, cell: usize, k: usize) -> CellCorner
    requires cell { cell < (values_of cells.now.smooth cells.now.grid).count }
    requires corner { k < 4 }
{
    CellCorner {
        point: cells.corner(cell, k, 0),
        colour: cells.colour(cell, k),
        opacity: cells.opacity(cell, k),
    }
}

// A micropolygon of a grid, in camera space.
fn cell_of(cells: &GridCells<'_>, cell: usize) -> Option<Cell> {
    if cell >= cells.count() {
        return None;
    }
    Some(Cell {
        a: corner_of(cells, cell, 0),
        b: corner_of(cells, cell, 1),
        c: corner_of(cells, cell, 2),
        d: corner_of(cells, cell, 3),
    })
}

// Micropolygon 167 of the first leaf, on the raster.
fn micropolygon(alloc: Global) -> Result<Quad, Fail> {
    let [first, ..] = leaves();
    let arena = Bump::new(alloc);
    let grid = tour().grid(&arena, alloc, &first, 4, 4)?;
    let cells = GridCells {
        grid,
        smooth: false,
    };
    let cell = cell_of(&cells, 167).ok_or("a micropolygon")?;
    let (camera, _) = look(alloc)?;
    Ok(quad_of(&camera, &cell, false, false).ok_or("a side")?)
}

#[test]
fn a_micropolygon_at_a_sample(rt: HostRuntime) -> Result<(), Fail> {
    let quad = micropolygon(rt.alloc())?;
    for (corner, place) in [
        (&quad.a, (1939, 5533)),
        (&quad.b, (2196, 5520)),
        (&quad.c, (2210, 5274)),
        (&quad.d, (1953, 5286)),
    ] {
        assert_eq!(rt; (corner.place.x(), corner.place.y()), place);
    }
    let sample = sample_at(8, 20, 2, 2, 2);
    assert_eq!(rt;
        (sample.place.x(), sample.place.y(), sample.time),
        (2051, 5300, 60781)
    );
    let fragment = covers(&quad, sample.place).ok_or("a fragment")?;
    assert_eq!(rt; fragment.depth.raw(), 141403);
    assert_eq!(rt;
        written(rt.alloc(), &[fragment.colour])?.as_str(),
        "14336 20480 16384"
    );
    Ok(())
}

// Hides the grids of the leaves.
fn hide_all(tile: &mut Tile, alloc: Global, camera: &Camera) -> Result<(), Fail> {
    for piece in leaves() {
        let arena = Bump::new(alloc);
        let grid = tour().grid(&arena, alloc, &piece, 4, 4)?;
        let cells = GridCells {
            grid,
            smooth: false,
        };
        tile.hide(&cells, camera, false, false)?;
    }
    Ok(())
}

// How many samples count for the pixel (8, 20), the sum of their weights, and the mean of their colours.
fn pixel(tile: &Tile, options: &Options) -> (u32, i64, Vec3) {
    let mut sums = Sums::new();
    let (mut count, mut total): (u32, i64) = (0, 0);
    for n in 0..tile.samples() {
        let [x, y] = tile.at(n);
        let weight = weight(options, x.saturating_sub(2176), y.saturating_sub(5248));
        if weight.raw() != 0 && count < 1000 {
            count += 1;
            total = total.saturating_add(weight.raw());
            sums.add(weight, tile.colour(n));
        }
    }
    (count, total, sums.mean())
}

#[test]
fn a_pixel(rt: HostRuntime) -> Result<(), Fail> {
    let (camera, options) = look(rt.alloc())?;
    let mut tile = Tile::new(rt.alloc(), [7, 19, 10, 22], 2, 2)?;
    hide_all(&mut tile, rt.alloc(), &camera)?;
    let (count, total, mean) = pixel(&tile, &options);
    assert_eq!(rt; (count, total), (16, 223518));
    assert_eq!(rt; written(rt.alloc(), &[mean])?.as_str(), "15140 21645 16384");
    assert_eq!(rt; pixel_levels(&options, mean), [59, 84, 64]);
    assert_eq!(rt; weight(&options, 2051 - 2176, 5300 - 5248).raw(), 26724);
    Ok(())
}

// What a tile of samples shows of squares that are hidden in it. The places and colours were computed from the formulas of
// docs/DEFINITIONS.md by a program that shares nothing with this one.
ghost use Rattle.std.specs.Prelude.{◌≡◌};

use crate::texts::{triple, triples};
use dice::GridRef;
use fixed_math::{Num, Vec3};
use hider::{Corner, GridCells, Quad, Spot, Tile, covers};
use std::alloc::Global;
use std::test::Fail;
use transforms::{Camera, FormFault, View};

// An orthographic camera of four by four pixels over the square from (-1, -1) to (1, 1).
fn camera() -> Result<Camera, FormFault> {
    let (low, high) = (Num::sat(-65536), Num::sat(65536));
    Camera::new(View {
        fov: None,
        window: [low, high, low, high],
        width: 4,
        height: 4,
        near: Num::sat(1),
        far: Num::sat(2147418112),
    })
}

// The grid of one cell.
fn one_cell<'a>(p: &'a [Vec3], ci: &'a [Vec3], oi: &'a [Vec3]) -> Option<GridRef<'a>> {
    if p.len() != 4 || ci.len() != 4 || oi.len() != 4 {
        return None;
    }
    Some(GridRef {
        columns: 2,
        rows: 2,
        p,
        ci,
        oi,
        closing: None,
    })
}

// Hides a cell with these corners, of that colour and opacity.
fn hide(
    tile: &mut Tile,
    alloc: Global,
    corners: &str,
    colour: &str,
    opacity: &str,
) -> Result<(), Fail>
    ensures { tile.new.grid ≡ tile.old.grid }
{
    let camera = camera()?;
    let p = triples(alloc, corners)?;
    let ci = [triple(colour)?; 4];
    let oi = [triple(opacity)?; 4];
    let grid = one_cell(&p, &ci, &oi).ok_or("four corners")?;
    let cells = GridCells {
        grid,
        smooth: false,
    };
    tile.hide(&cells, &camera, false, false)?;
    Ok(())
}

// Hides a cell with these corners, each of which has a colour and an opacity of its own.
fn hide_smooth(
    tile: &mut Tile,
    alloc: Global,
    corners: &str,
    colours: &str,
    opacities: &str,
) -> Result<(), Fail>
    ensures { tile.new.grid ≡ tile.old.grid }
{
    let camera = camera()?;
    let p = triples(alloc, corners)?;
    let ci = triples(alloc, colours)?;
    let oi = triples(alloc, opacities)?;
    let grid = one_cell(&p, &ci, &oi).ok_or("four corners")?;
    let cells = GridCells { grid, smooth: true };
    tile.hide(&cells, &camera, false, false)?;
    Ok(())
}

// The places and colours of a tile's samples.
fn samples(alloc: Global, tile: &Tile) -> Result<String, Fail> {
    let mut text = String::new(alloc);
    for n in 0..tile.samples() {
        if n > 0 {
            text.push_str("; ")?;
        }
        let [x, y] = tile.at(n);
        let c = tile.colour(n);
        let one = format!(in alloc; "{x} {y} {} {} {}", c.x.raw(), c.y.raw(), c.z.raw())?;
        text.push_str(one.as_str())?;
    }
    Ok(text)
}

// Of the pixels 1 and 2 across the left half of the square ends between them.
#[test]
fn squares_behind_one_another(rt: HostRuntime) -> Result<(), Fail> {
    let mut tile = Tile::new(rt.alloc(), [1, 0, 3, 2], 2, 2)?;
    assert!(rt; !tile.all_behind(Num::sat(2147483647)));
    let nothing =
        "362 1 0 0 0; 388 64 0 0 0; 260 152 0 0 0; 438 154 0 0 0; 615 10 0 0 0; 645 53 0 0 0; 515 227 0 0 0; \
                   678 212 0 0 0; 329 297 0 0 0; 415 328 0 0 0; 288 401 0 0 0; 385 497 0 0 0; 523 313 0 0 0; 679 337 0 0 0; \
                   637 445 0 0 0; 703 387 0 0 0";
    assert_eq!(rt; samples(rt.alloc(), &tile)?.as_str(), nothing);
    let whole =
        "-65536 -65536 131072, 65536 -65536 131072, -65536 65536 131072, 65536 65536 131072";
    hide(
        &mut tile,
        rt.alloc(),
        whole,
        "0 65536 0",
        "65536 65536 65536",
    )?;
    assert!(rt; tile.all_behind(Num::sat(131073)));
    assert!(rt; !tile.all_behind(Num::sat(131072)));
    let near = "-65536 -65536 65536, 65536 -65536 65536, -65536 65536 65536, 65536 65536 65536";
    hide(
        &mut tile,
        rt.alloc(),
        near,
        "32768 0 100",
        "32768 16384 65536",
    )?;
    assert!(rt; !tile.all_behind(Num::sat(131072)));
    let left = "-65536 -65536 98304, 0 -65536 98304, -65536 65536 98304, 0 65536 98304";
    hide(
        &mut tile,
        rt.alloc(),
        left,
        "7 7 65536",
        "65536 65536 65536",
    )?;
    let want =
        "362 1 32771 5 100; 388 64 32771 5 100; 260 152 32771 5 100; 438 154 32771 5 100; 615 10 32768 49152 100; \
                645 53 32768 49152 100; 515 227 32768 49152 100; 678 212 32768 49152 100; 329 297 32771 5 100; \
                415 328 32771 5 100; 288 401 32771 5 100; 385 497 32771 5 100; 523 313 32768 49152 100; \
                679 337 32768 49152 100; 637 445 32768 49152 100; 703 387 32768 49152 100";
    assert_eq!(rt; samples(rt.alloc(), &tile)?.as_str(), want);
    Ok(())
}

// Its first triangle has two of the samples, its second the others.
#[test]
fn a_smooth_square_before_a_green_one(rt: HostRuntime) -> Result<(), Fail> {
    let mut tile = Tile::new(rt.alloc(), [1, 0, 3, 2], 2, 2)?;
    let near = "-65536 -65536 65536, 65536 -65536 65536, -65536 65536 65536, 65536 65536 65536";
    hide_smooth(
        &mut tile,
        rt.alloc(),
        near,
        "0 0 0, 65536 0 0, 0 65536 0, 65536 65536 30000",
        "65536 65536 65536, 32768 65536 0, 65536 65536 65536, 65536 0 65536",
    )?;
    assert!(rt; !tile.all_behind(Num::sat(131072)));
    let far = "-65536 -65536 131072, 65536 -65536 131072, -65536 65536 131072, 65536 65536 131072";
    hide(&mut tile, rt.alloc(), far, "0 65536 0", "65536 65536 65536")?;
    let want =
        "362 1 23168 88640 10605; 388 64 24832 86272 11367; 260 152 16640 72448 7617; 438 154 28032 83712 12832; \
                615 10 39360 104256 18017; 645 53 41280 103424 18896; 515 227 32960 83968 15087; 678 212 43392 95360 19863; \
                329 297 21056 67584 9638; 415 328 26560 71104 12158; 288 401 18432 58304 8437; 385 497 24640 58368 11279; \
                523 313 33472 78976 15322; 679 337 43456 87424 19892; 637 445 40768 74112 16962; 703 387 44992 81536 18662";
    assert_eq!(rt; samples(rt.alloc(), &tile)?.as_str(), want);
    Ok(())
}

fn grey() -> Vec3 {
    Vec3 {
        x: Num::sat(32768),
        y: Num::sat(32768),
        z: Num::sat(32768),
    }
}

fn corner(place: Spot, depth: i128) -> Corner {
    Corner {
        place,
        depth: Num::sat(depth),
        colour: grey(),
        opacity: grey(),
    }
}

// A grey square from (0, 0) to (512, 512) on the raster, of that depth.
fn square(depth: i128) -> Quad {
    Quad {
        a: corner(Spot::new(0, 0), depth),
        b: corner(Spot::new(0, 512), depth),
        c: corner(Spot::new(512, 512), depth),
        d: corner(Spot::new(512, 0), depth),
    }
}

#[test]
fn a_square_covers_its_places(rt: HostRuntime) -> Result<(), Fail> {
    assert!(rt; covers(&square(7), Spot::new(0, 0)).is_some());
    assert!(rt; covers(&square(7), Spot::new(512, 1)).is_none());
    assert!(rt; covers(&square(7), Spot::new(1, 512)).is_none());
    let fragment = covers(&square(7), Spot::new(511, 1)).ok_or("a fragment")?;
    assert_eq!(rt; (fragment.depth.raw(), fragment.colour.y.raw()), (7, 32768));
    Ok(())
}

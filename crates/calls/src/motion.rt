// Surfaces that move, and transformations that move them.
ghost use Rattle.std.specs.Prelude.{◌≤◌};

use crate::surfaces::{at, bilinear, raw, raws, vec3};
use moving::{Moving, closing_place, place_on_way, steps_at};
use moving_maps::{Change, MovingMap, Times, When};
use patches::{Bilinear, Dyadic, Piece, Surface};
use std::test::Fail;
use transforms::Affine;

/// The square from (0, 0) to (1, 1) at depth 1.
fn square() -> Bilinear {
    bilinear(
        at(0, 0, 65536),
        at(65536, 0, 65536),
        at(0, 65536, 65536),
        at(65536, 65536, 65536),
    )
}

/// The same, two to the right, one lower and half as deep.
fn later_square() -> Bilinear {
    bilinear(
        at(131072, -65536, 32768),
        at(196608, -65536, 32768),
        at(131072, 0, 32768),
        at(196608, 0, 32768),
    )
}

#[test]
fn a_square_that_moves(rt: HostRuntime) -> Result<(), Fail> {
    let (first, last) = (square(), later_square());
    let moving = Moving {
        first: &first,
        last: &last,
    };
    let half = Dyadic::new(2048);
    assert_eq!(rt; raws(moving.point(half, half)), (32768, 32768, 65536));
    let [low, high] = moving.box_of(&Piece::whole(0));
    assert_eq!(rt;
        (raws(low), raws(high)),
        ((0, -65536, 32768), (196608, 65536, 65536))
    );
    let closing = moving.closing_at(half, half, vec3(32768, 32778, 65529));
    assert_eq!(rt; raws(closing), (163840, -32758, 32761));
    Ok(())
}

/// A place on one way, which goes up, down and far.
fn on_the_way(steps: u32) -> (i64, i64, i64)
    requires { steps ≤ 65536 }
{
    raws(place_on_way(vec3(0, 10, -5), vec3(3, 7, 65531), steps))
}

#[test]
fn places_on_the_way(rt: HostRuntime) -> Result<(), Fail> {
    assert_eq!(rt; on_the_way(0), (0, 10, -5));
    assert_eq!(rt; on_the_way(32768), (1, 8, 32763));
    assert_eq!(rt; on_the_way(65535), (2, 7, 65530));
    assert_eq!(rt; on_the_way(65536), (3, 7, 65531));
    Ok(())
}

#[test]
fn where_motions_end(rt: HostRuntime) -> Result<(), Fail> {
    let none = vec3(0, 0, 0);
    let closing = closing_place(vec3(5, 5, 5), vec3(1, 2, 3), vec3(2, 2, 1));
    assert_eq!(rt; raws(closing), (6, 5, 3));
    let limit = vec3(2147483647, -2147483647, 0);
    let closing = closing_place(limit, none, vec3(7, -7, 7));
    assert_eq!(rt; raws(closing), (2147483647, -2147483647, 7));
    Ok(())
}

#[test]
fn steps_at_moments(rt: HostRuntime) -> Result<(), Fail> {
    for (moment, steps) in [
        (65535, 0),
        (65536, 0),
        (98304, 16384),
        (196608, 65536),
        (196609, 65536),
    ] {
        assert_eq!(rt; steps_at(raw(65536), raw(196608), raw(moment)), steps);
    }
    Ok(())
}

#[test]
fn maps_that_move(rt: HostRuntime) -> Result<(), Fail> {
    let to_right = Change::Before(Affine::translate(vec3(131072, 0, 0)));
    let (from, to) = (raw(0), raw(65536));
    let moved = MovingMap::still(Affine::identity())
        .behind(
            &When::First { from, to },
            &Change::Before(Affine::identity()),
        )?
        .behind(&When::Last { from, to }, &to_right)?;
    assert_eq!(rt; moved.first().point(vec3(1, 2, 3)), [1, 2, 3]);
    assert_eq!(rt; moved.last().point(vec3(1, 2, 3)), [131073, 2, 3]);
    assert!(rt; moved.times() == Times::Between { from, to });
    let mixed = moved.behind(
        &When::Last {
            from,
            to: raw(65535),
        },
        &to_right,
    )?;
    assert!(rt; mixed.times() == Times::Mixed);
    let both = moved.before(&moved)?;
    assert_eq!(rt; both.last().point(vec3(1, 2, 3)), [262145, 2, 3]);
    assert!(rt; both.times() == Times::Between { from, to });
    let none = mixed.behind(&When::Always, &Change::Instead(Affine::identity()))?;
    assert!(rt; none.times() == Times::Still);
    Ok(())
}

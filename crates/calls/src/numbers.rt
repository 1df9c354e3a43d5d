// Numbers, texts of one's own, and names by their places.
use fixed_math::{Decimal, Names, Num, Text, Wide, hash32, isqrt, unit};
use std::test::Fail;

fn raw(x: i64) -> Num {
    Num::sat(x as i128)
}

fn decimal(negative: bool, digits: u64, exponent: i32) -> Num {
    Decimal {
        negative,
        digits,
        exponent,
    }
    .num()
}

#[test]
fn worked_values(rt: HostRuntime) -> Result<(), Fail> {
    for (value, want) in [
        (raw(-1).mul(raw(1)), -1),
        (raw(65536).div(raw(0)), 0),
        (raw(1).div(raw(-3)), -21846),
        (raw(2147483647).add(raw(1)), 2147483647),
        (raw(131072).sqrt(), 92681),
        (raw(102943).sin(), 65536),
        (raw(32768).exp2(), 92681),
        (raw(131072).log2(), 65536),
        (raw(131072).pow(raw(65536)), 131072),
        // 1e38, .8 and -0.1
        (decimal(false, 1, 38), 2147483647),
        (decimal(false, 8, -1), 52429),
        (decimal(true, 1, -1), -6554),
        (Num::default(), 0),
    ] {
        assert_eq!(rt; value.raw(), want);
    }
    Ok(())
}

#[test]
fn whole_numbers(rt: HostRuntime) -> Result<(), Fail> {
    assert_eq!(rt; hash32(&[]), 0);
    assert_eq!(rt; hash32(&[0]), 0x514E28B7);
    for (square, root) in [(0, 0), (24, 4), (25, 5), (u128::MAX, u64::MAX as u128)] {
        assert_eq!(rt; isqrt(square), root);
    }
    assert_eq!(rt; Wide::from_raw(-140737488355328).raw(), -140737488355328);
    let direction = unit([3, 0, -4]);
    assert_eq!(rt;
        (direction.x, direction.y, direction.z),
        (raw(39321), raw(0), raw(-52429))
    );
    Ok(())
}

#[test]
fn texts_of_ones_own(rt: HostRuntime) -> Result<(), Fail> {
    let text = Text::from_bytes(rt.alloc(), b"plain")?;
    let copy = text.copied(rt.alloc())?;
    assert_eq!(rt; copy.as_str(), "plain");
    assert!(rt; text.is(&copy));
    Ok(())
}

#[test]
fn last_places_of_names(rt: HostRuntime) -> Result<(), Fail> {
    let a = Text::from_bytes(rt.alloc(), b"a")?;
    let b = Text::from_bytes(rt.alloc(), b"b")?;
    let c = Text::from_bytes(rt.alloc(), b"c")?;
    let mut names = Names::new(rt.alloc());
    for name in [&a, &b, &a] {
        names.push(name)?;
    }
    for (count, places) in [
        (3, [Some(2), Some(1), None]),
        (2, [Some(0), Some(1), None]),
        (1, [Some(0), None, None]),
        (0, [None, None, None]),
    ] {
        names.truncate(count);
        assert_eq!(rt; names.len(), count);
        assert_eq!(rt;
            [names.place_of(&a), names.place_of(&b), names.place_of(&c)],
            places
        );
    }
    Ok(())
}

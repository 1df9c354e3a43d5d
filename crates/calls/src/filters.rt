// From samples to the bytes of a picture. The numbers were computed from the formulas of docs/DEFINITIONS.md by a program that shares
// nothing with this one.
ghost use Rattle.std.specs.Prelude.{◌≡◌};

use crate::texts::{raw, triple, written};
use filter_ppm::{Sums, band_bytes, expose, header, pixel_levels, quantize, reach, weight};
use fixed_math::Num;
use scene_state::{Filter, Options};
use std::alloc::Global;
use std::test::Fail;

// One sample a pixel, a filter of two by one and a half pixels, no exposure, and numbers up to 255.
fn filtered(filter: Filter) -> Options
    ensures { result.one ≡ 255 }
{
    Options {
        xs: 1,
        ys: 1,
        filter,
        wx: 512,
        wy: 384,
        gain: Num::sat(65536),
        gamma: Num::sat(65536),
        one: 255,
        min: 0,
        max: 255,
        crop: [0, 0, 4, 4],
    }
}

// The rows of a table, a place with its weight, with the weights that a filter has there.
fn weights(alloc: Global, options: &Options, rows: &str) -> Result<String, Fail> {
    let mut found = String::new(alloc);
    for row in rows.split(';') {
        if !found.is_empty() {
            found.push_str("; ")?;
        }
        let mut words = row.split_whitespace();
        let dx = raw(words.next())?.raw();
        let dy = raw(words.next())?.raw();
        let weight = weight(options, dx, dy).raw();
        found.push_str(format!(in alloc; "{dx} {dy} = {weight}")?.as_str())?;
    }
    Ok(found)
}

#[test]
fn weights_of_filters(rt: HostRuntime) -> Result<(), Fail> {
    for (filter, rows) in [
        (
            Filter::Box,
            "0 0 = 65536; 128 0 = 65536; -256 0 = 65536; 256 0 = 0; -256 -192 = 65536; 255 191 = 65536; 0 192 = 0; 1 -1 = 65536; \
             -77 100 = 65536; -257 5 = 0; 200 -150 = 65536; 10000000 0 = 0",
        ),
        (
            Filter::Triangle,
            "0 0 = 65536; 128 0 = 32768; -256 0 = 0; 256 0 = 0; -256 -192 = 0; 255 191 = 1; 0 192 = 0; 1 -1 = 64939; \
             -77 100 = 21956; -257 5 = 0; 200 -150 = 3136; 10000000 0 = 0",
        ),
        (
            Filter::Gaussian,
            "0 0 = 65536; 128 0 = 39749; -256 0 = 8869; 256 0 = 0; -256 -192 = 1200; 255 191 = 1244; 0 192 = 0; 1 -1 = 65531; \
             -77 100 = 31789; -257 5 = 0; 200 -150 = 5704; 10000000 0 = 0",
        ),
    ] {
        let found = weights(rt.alloc(), &filtered(filter), rows)?;
        assert_eq!(rt; found.as_str(), rows);
    }
    for (width, pixels) in [(1, 1), (512, 1), (513, 2), (4096, 8)] {
        assert_eq!(rt; reach(width), pixels);
    }
    Ok(())
}

// The rows of a table, a colour with the exposed one and the numbers of the pixel, with what these options give.
fn levels(alloc: Global, options: &Options, rows: &str) -> Result<String, Fail> {
    let mut found = String::new(alloc);
    for row in rows.split(';') {
        if !found.is_empty() {
            found.push_str("; ")?;
        }
        let colour = triple(row)?;
        let exposed = expose(options, colour);
        let (before, after) = (written(alloc, &[colour])?, written(alloc, &[exposed])?);
        let [r, g, b] = pixel_levels(options, colour);
        let numbers = format!(in alloc; "{} = {} = {r} {g} {b}", before.as_str(), after.as_str())?;
        found.push_str(numbers.as_str())?;
        if r != quantize(options, exposed.x) {
            found.push_str(" otherwise")?;
        }
    }
    Ok(found)
}

#[test]
fn levels_of_colours(rt: HostRuntime) -> Result<(), Fail> {
    let plain = filtered(Filter::Box);
    let rows =
        "0 32768 65536 = 0 32768 65536 = 0 128 255; -65536 131072 128 = -65536 131072 128 = 0 255 0; \
                2147483647 -2147483647 257 = 2147483647 -2147483647 257 = 255 0 1; 16384 8192 4096 = 16384 8192 4096 = 64 32 16; \
                40000 50000 60000 = 40000 50000 60000 = 156 195 233; 256 255 65535 = 256 255 65535 = 1 1 255";
    assert_eq!(rt; levels(rt.alloc(), &plain, rows)?.as_str(), rows);
    // half as bright again, and gamma 2.2
    let exposed = Options {
        gain: Num::sat(98304),
        gamma: Num::sat(144179),
        ..plain
    };
    let rows =
        "0 32768 65536 = 0 57502 78798 = 0 224 255; -65536 131072 128 = 0 107981 4624 = 0 255 18; \
                2147483647 -2147483647 257 = 7395138 0 6344 = 255 0 25; 16384 8192 4096 = 41962 30621 22345 = 163 119 87; \
                40000 50000 60000 = 62958 69679 75700 = 245 255 255; 256 255 65535 = 6336 6321 78797 = 25 25 255";
    assert_eq!(rt; levels(rt.alloc(), &exposed, rows)?.as_str(), rows);
    // 200 numbers, of which those from 10 to 180 are written
    let narrow = Options {
        gain: Num::sat(131072),
        one: 200,
        min: 10,
        max: 180,
        ..plain
    };
    let rows =
        "0 32768 65536 = 0 65536 131072 = 10 180 180; -65536 131072 128 = -131072 262144 256 = 10 180 10; \
                2147483647 -2147483647 257 = 2147483647 -2147483647 514 = 180 10 10; \
                16384 8192 4096 = 32768 16384 8192 = 100 50 25; 40000 50000 60000 = 80000 100000 120000 = 180 180 180; \
                256 255 65535 = 512 510 131070 = 10 10 180";
    assert_eq!(rt; levels(rt.alloc(), &narrow, rows)?.as_str(), rows);
    Ok(())
}

// (1 * 65536 + 2 * -1 + 0.5 * 7) / 3.5, and so on, each rounded down.
#[test]
fn means_of_colours(rt: HostRuntime) -> Result<(), Fail> {
    let mut sums = Sums::new();
    assert_eq!(rt; written(rt.alloc(), &[sums.mean()])?.as_str(), "0 0 0");
    sums.add(Num::sat(65536), triple("65536 -1 2147483647")?);
    sums.add(Num::sat(131072), triple("-1 -1 2147483647")?);
    sums.add(Num::sat(32768), triple("7 0 -2147483647")?);
    assert_eq!(rt;
        written(rt.alloc(), &[sums.mean()])?.as_str(),
        "18725 -1 1533916890"
    );
    Ok(())
}

#[test]
fn bytes_of_pictures(rt: HostRuntime) -> Result<(), Fail> {
    let options = filtered(Filter::Box);
    let head = header(rt.alloc(), 4096, 7, &options)?;
    assert_eq!(rt; head.as_slice(), b"P6\n4096 7\n255\n".as_slice());
    let band = band_bytes(rt.alloc(), &options, &[[0, 128, 255], [10, 13, 1]])?;
    assert_eq!(rt; band.as_slice(), b"\x00\x80\xff\n\r\x01".as_slice());
    Ok(())
}

// Two bytes where the greatest number takes them, the high one first.
#[test]
fn bytes_of_pictures_of_sixteen_bits(rt: HostRuntime) -> Result<(), Fail> {
    let options = Options {
        one: 65535,
        max: 65535,
        ..filtered(Filter::Box)
    };
    let head = header(rt.alloc(), 1, 2, &options)?;
    assert_eq!(rt; head.as_slice(), b"P6\n1 2\n65535\n".as_slice());
    let band = band_bytes(rt.alloc(), &options, &[[65535, 32768, 0], [1, 256, 255]])?;
    let wanted = b"\xff\xff\x80\x00\x00\x00\x00\x01\x01\x00\x00\xff";
    assert_eq!(rt; band.as_slice(), wanted.as_slice());
    Ok(())
}

// Textures read and looked up, against numbers of an independent program that sums the samples of each square anew.
use fixed_math::{Num, Vec3};
use std::alloc::Global;
use std::test::Fail;
use texture::{Cache, Texture, TextureFault, level, read};

// Files of textures of 2 by 2 samples, and how many bytes their samples have.
const GOOD: [(&[u8], u64); 6] = [
    (b"P6\n2 2\n255\nabcdefghijkl", 12),
    (b"P6#one\n2#two\n#three\n 2\t\r\n#\n255 abcdefghijkl", 12),
    (b"P6 02 0002 000255\rabcdefghijkl", 12),
    (b"P6 2 2 256 abcdefghijklmnopqrstuvwx", 24),
    (b"P6 2 2 65535\nabcdefghijklmnopqrstuvwxyz", 24),
    (b"P6 2 2 100\tabcdefghijkl and more", 12),
];

// Bytes that are no files of textures.
const BAD: [&[u8]; 18] = [
    b"",
    b"P6",
    b"P6 2 2",
    b"P5\n2 2\n255\nabcdefghijkl",
    b"P62 2 255\nabcdefghijkl",
    b"P6\n2 2 255#a\nabcdefghijkl",
    b"P6\n2 2 255abcdefghijkl",
    b"P6 0 2 255\nabcdefghijkl",
    b"P6 2 2 0\nabcdefghijkl",
    b"P6 2 2 65536\nabcdefghijklmnopqrstuvwx",
    b"P6 2 2 255\nabcdefghijk",
    b"P6 2 2 256 abcdefghijkl",
    b"P6 +2 2 255\nabcdefghijkl",
    b"P6\n#2 2 255\nabcdefghijkl",
    b"P6 18446744073709551618 2 255\nabcdefghijkl",
    b"P6 2 4294967298 255\nabcdefghijkl",
    b"P6 2,2 255\nabcdefghijkl",
    b"P6 2 2 1\x0babcdefghijkl",
];

// Look-ups: the texture, the level, s and t, and the colour.
const LOOKS: [(u32, u8, i128, i128, [i64; 3]); 28] = [
    (0, 0, 22445, -228, [28296, 60962, 22896]),
    (0, 0, 31750, 65319, [8377, 28835, 53560]),
    (0, 1, -13672, -10506, [24246, 44726, 42104]),
    (0, 1, 87646, 50239, [35779, 27731, 10360]),
    (0, 2, -7663, 27931, [37060, 42948, 41029]),
    (0, 2, 56387, -12398, [34677, 33858, 32329]),
    (0, 3, 46510, 8140, [36445, 37250, 36304]),
    (0, 3, -15086, -8735, [36445, 37250, 36304]),
    (0, 0, 2147483647, -2147483647, [65536, 5896, 17365]),
    (0, 2, 0, 65536, [28508, 47922, 55540]),
    (1, 0, 36838, 34810, [13389, 26954, 28229]),
    (1, 0, -10844, 11544, [34492, 20299, 9918]),
    (1, 1, -8111, 52226, [29049, 36959, 28515]),
    (1, 1, 35642, -12253, [31312, 26076, 36105]),
    (1, 2, 88377, 54115, [37145, 43510, 39171]),
    (1, 2, -3774, 9260, [32641, 31630, 36412]),
    (1, 3, 62657, 62238, [28164, 26418, 39717]),
    (1, 3, 56414, -11892, [30909, 35611, 33251]),
    (1, 4, 55642, 56748, [31314, 33583, 34417]),
    (1, 4, 31993, -13501, [33730, 34499, 34681]),
    (1, 5, 8977, -13895, [33733, 33907, 33927]),
    (1, 5, 52963, -2545, [33787, 33247, 33358]),
    (1, 6, 17959, 34937, [33839, 33647, 33857]),
    (1, 6, -1093, 50868, [33903, 33548, 33900]),
    (1, 7, -4561, 54830, [33766, 33755, 33811]),
    (1, 7, 20433, 53434, [33766, 33755, 33811]),
    (1, 0, 2147483647, -2147483647, [28577, 5302, 65536]),
    (1, 2, 0, 65536, [31348, 33520, 25094]),
];

// Steps, and the levels of both textures for them.
const LEVELS: [(u32, u8, u8); 12] = [
    (0, 0, 0),
    (65536, 0, 0),
    (65537, 1, 1),
    (131072, 1, 1),
    (262144, 2, 2),
    (262145, 3, 3),
    (2097152, 3, 5),
    (4194304, 3, 6),
    (4194305, 3, 7),
    (8388608, 3, 7),
    (8388609, 3, 7),
    (4294967295, 3, 7),
];

// A file with this header, and so many bytes behind it: at place k the remainder of 7 k^2 + 13 k + 5 by 251.
fn made(alloc: Global, header: &[u8], count: u64) -> Result<Vec<u8>, Fail> {
    let mut bytes = Vec::new(alloc);
    bytes.extend_from_slice(header)?;
    for k in 0..count.min(20000) {
        let number = k
            .wrapping_mul(k)
            .wrapping_mul(7)
            .wrapping_add(k.wrapping_mul(13));
        bytes.push((number.wrapping_add(5) % 251) as u8)?;
    }
    Ok(bytes)
}

// The texture of such a file.
fn texture_of(
    alloc: Global,
    header: &[u8],
    count: u64,
) -> Result<Result<Texture, TextureFault>, Fail> {
    let bytes = made(alloc, header, count)?;
    Ok(read(alloc, bytes.as_slice()))
}

// The raw numbers of a colour.
fn raws(colour: Vec3) -> [i64; 3] {
    [colour.x.raw(), colour.y.raw(), colour.z.raw()]
}

#[test]
fn files_are_read(rt: HostRuntime) -> Result<(), Fail> {
    for (bytes, count) in GOOD {
        match read(rt.alloc(), bytes) {
            Ok(texture) => {
                assert_eq!(rt; texture.width(), 2);
                assert_eq!(rt; texture.height(), 2);
                assert_eq!(rt; texture.sample_bytes(), count);
            }
            Err(fault) => assert_eq!(rt; fault, TextureFault::NoMemory),
        }
    }
    Ok(())
}

#[test]
fn other_bytes_are_refused(rt: HostRuntime) -> Result<(), Fail> {
    for bytes in BAD {
        assert_eq!(rt; read(rt.alloc(), bytes).err(), Some(TextureFault::X1));
    }
    Ok(())
}

#[test]
fn sides_have_a_limit(rt: HostRuntime) -> Result<(), Fail> {
    for (header, count, fault) in [
        (b"P6 2048 1 9 ".as_slice(), 6144, None),
        (b"P6 2049 1 9 ".as_slice(), 6147, Some(TextureFault::M11)),
        (b"P6 1 2049 9 ".as_slice(), 6147, Some(TextureFault::M11)),
        (b"P6 1 2049 9 ".as_slice(), 6146, Some(TextureFault::X1)),
    ] {
        let got = texture_of(rt.alloc(), header, count)?;
        assert_eq!(rt; got.err(), fault);
    }
    Ok(())
}

#[test]
fn looks_are_of_the_whole_texture(rt: HostRuntime) -> Result<(), Fail> {
    let Ok(small) = texture_of(rt.alloc(), b"P6 7 5 200 ", 105)? else {
        return Ok(());
    };
    let Ok(large) = texture_of(rt.alloc(), b"P6 45 70 60000 ", 18900)? else {
        return Ok(());
    };
    let textures = [small, large];
    let mut cache = Cache::new(rt.alloc(), &textures)?;
    assert_eq!(rt; cache.tiles(), 0);
    for (which, l, s, t, colour) in LOOKS {
        let got = cache.look(which.min(1), l.min(11), Num::sat(s), Num::sat(t));
        assert_eq!(rt; raws(got), colour);
    }
    assert_eq!(rt; cache.tiles(), 14);
    Ok(())
}

#[test]
fn steps_have_levels(rt: HostRuntime) -> Result<(), Fail> {
    let Ok(small) = texture_of(rt.alloc(), b"P6 7 5 200 ", 105)? else {
        return Ok(());
    };
    let Ok(large) = texture_of(rt.alloc(), b"P6 45 70 60000 ", 18900)? else {
        return Ok(());
    };
    for (step, of_small, of_large) in LEVELS {
        assert_eq!(rt; level(&small, i64::from(step)), of_small);
        assert_eq!(rt; level(&large, i64::from(step)), of_large);
    }
    Ok(())
}

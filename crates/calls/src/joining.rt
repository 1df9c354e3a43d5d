// Parts of a picture joined. The texts were written by hand, byte by byte: five pixels across and one down, in buckets of four by four.
use fixed_math::List;
use parts::{JoinFault, join};
use std::alloc::Global;
use std::test::Fail;

const RIGHT: &[u8] =
    b"REYPART1\0\0\0\x05\0\0\0\x01\0\0\0\xff\0\0\0\x04\0\0\0\x4d\0\0\0\x01\0\0\0\x01mno";

const LEFT: &[u8] =
    b"REYPART1\0\0\0\x05\0\0\0\x01\0\0\0\xff\0\0\0\x04\0\0\0\x4d\0\0\0\x01\0\0\0\0abcdefghijkl";

const FOREIGN: &[u8] =
    b"REYPART1\0\0\0\x05\0\0\0\x01\0\0\0\xff\0\0\0\x04\0\0\0\x4e\0\0\0\x01\0\0\0\0abcdefghijkl";

// The bytes of a text, in memory of their own.
fn bytes_of(alloc: Global, text: &[u8]) -> Result<List<u8>, Fail> {
    let mut bytes = Vec::new(alloc);
    bytes.extend_from_slice(text)?;
    Ok(List(bytes))
}

// What becomes of two parts.
fn joined(alloc: Global, first: &[u8], second: &[u8]) -> Result<Result<Vec<u8>, JoinFault>, Fail> {
    let parts = [bytes_of(alloc, first)?, bytes_of(alloc, second)?];
    Ok(join(alloc, &parts))
}

#[test]
fn parts_make_a_picture(rt: HostRuntime) -> Result<(), Fail> {
    match joined(rt.alloc(), RIGHT, LEFT)? {
        Ok(bytes) => assert_eq!(rt;
            bytes.as_slice(),
            b"P6\n5 1\n255\nabcdefghijklmno".as_slice()
        ),
        Err(fault) => assert_eq!(rt; fault, JoinFault::NoMemory),
    }
    Ok(())
}

#[test]
fn parts_have_faults(rt: HostRuntime) -> Result<(), Fail> {
    for (first, second, fault) in [
        (RIGHT, &LEFT[..30], JoinFault::J1 { part: 1 }),
        (RIGHT, FOREIGN, JoinFault::J2 { part: 1 }),
        (LEFT, LEFT, JoinFault::J3 { part: 1, bucket: 0 }),
    ] {
        let got = joined(rt.alloc(), first, second)?;
        assert_eq!(rt; got.err(), Some(fault));
    }
    Ok(())
}

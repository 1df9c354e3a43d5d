// Operations of the Shading Language that name spaces, at worked places in the spaces of `operations`.
use crate::operations::{found, others};
use sl_ast::{SlType, SpaceName, ValueOperation as Op};
use std::test::Fail;

// From the first space to the second.
const PLACES: &str =
    "transform current world, 0 0 0 = -65536 -131072 -196608; transform world current, 65536 -65536 32768 = 131072 65536 229376; \
    transform object world, 32768 65536 -98304 = 0 -98304 -98304; \
    transform world object, 98304 -32768 65536 = 81920 196608 -262144; \
    transform shader object, 2147483647 2147483647 2147483647 = 1073741823 2147483647 -2147483647; \
    transform object shader, -2147483647 2 1 = -2147483647 1 -1; \
    transform world shader, 2147483647 -2147483647 0 = 2147483647 -2147352575 196608; \
    transform object object, 2147483647 65536 7 = 1073741823 65536 7; transform current shader, 1 2 3 = 1 2 3; \
    transform shader world, -2147483647 -2147483647 -2147483647 = -2147483647 -2147483647 -2147483647; \
    vtransform current world, 5 6 7 = 5 6 7; vtransform world current, 2147483647 -2147483647 1 = 2147483647 -2147483647 1; \
    vtransform object current, 65536 65536 65536 = 131072 32768 -65536; \
    vtransform current object, 65536 65536 65536 = 32768 131072 -65536; \
    vtransform object world, -98304 32768 1 = -196608 16384 -1; vtransform world object, -98304 32768 -1 = -49152 65536 1; \
    vtransform object shader, 2147483647 2147483647 2147483647 = 2147483647 1073741823 -2147483647; \
    vtransform shader object, -2147483647 -2147483647 -2147483647 = -1073741824 -2147483647 2147483647; \
    vtransform shader current, 0 -1 1 = 0 -1 1; vtransform current object, 3 3 3 = 1 6 -3; \
    ntransform current world, 5 6 7 = 5 6 7; ntransform object current, 65536 65536 65536 = 32768 131072 -65536; \
    ntransform current object, 65536 65536 65536 = 131072 32768 -65536; \
    ntransform world object, -98304 32768 -1 = -196608 16384 1; ntransform object world, -98304 32768 1 = -49152 65536 -1; \
    ntransform object shader, 2147483647 2147483647 2147483647 = 1073741823 2147483647 -2147483647; \
    ntransform shader object, -2147483647 -2147483647 -2147483647 = -2147483647 -1073741824 2147483647; \
    ntransform world current, 0 0 0 = 0 0 0; ntransform current object, 3 3 3 = 6 1 -3; \
    ntransform object current, 3 3 3 = 1 6 -3";

// A type with its space before three components.
const TRIPLES: &str =
    "point world, 0, 0, 0 = 65536 131072 196608; point object, 65536, 65536, 65536 = 131072 32768 -65536; \
    vector world, 1, 2, 3 = 1 2 3; vector object, 65536, -65536, 32768 = 131072 -32768 -32768; \
    normal object, 65536, -65536, 32768 = 32768 -131072 -32768; \
    point current, 2147483647, -2147483647, 0 = 2147483647 -2147483647 0; \
    point world, 2147483647, -2147483647, 2147483647 = 2147483647 -2147352575 2147483647; normal object, 3, 3, 3 = 1 6 -3; \
    vector object, 3, 3, 3 = 6 1 -3; color current, 65536, 0, 32768 = 65536 0 32768";

fn space(word: Option<&str>) -> SpaceName {
    match word {
        Some("world") => SpaceName::World,
        Some("object") => SpaceName::Object,
        Some("shader") => SpaceName::Shader,
        _ => SpaceName::Current,
    }
}

// A row's operation with its spaces, its operands and its value.
fn parts(row: &str) -> Option<(&str, &str, &str)> {
    let (operation, want) = row.split_once('=')?;
    let (words, operands) = operation.split_once(',')?;
    Some((words, operands, want.trim()))
}

// An operation of these words: a function before two spaces, or a type before one.
fn operation(words: &str) -> Op {
    let mut words = words.split_whitespace();
    let name = words.next();
    let from = space(words.next());
    let to = space(words.next());
    match name {
        Some("transform") => Op::Transform(from, to),
        Some("vtransform") => Op::VTransform(from, to),
        Some("ntransform") => Op::NTransform(from, to),
        Some("point") => Op::Convert(SlType::Point, from),
        Some("vector") => Op::Convert(SlType::Vector, from),
        Some("normal") => Op::Convert(SlType::Normal, from),
        _ => Op::Convert(SlType::Color, from),
    }
}

#[test]
fn places_in_other_spaces(rt: HostRuntime) -> Result<(), Fail> {
    for row in PLACES.split(';') {
        let (words, operand, want) = parts(row).ok_or("a row")?;
        let found = found(rt.alloc(), operation(words), operand)?;
        assert_eq!(rt; found.as_str(), want, "{row}");
    }
    Ok(())
}

// A type before a triple, and before the three components that it has, is the same.
#[test]
fn types_before_triples_and_components(rt: HostRuntime) -> Result<(), Fail> {
    for row in TRIPLES.split(';') {
        let (words, components, want) = parts(row).ok_or("a row")?;
        let triple = components.replace(rt.alloc(), ",", "")?;
        let converted = found(rt.alloc(), operation(words), triple.as_str())?;
        assert_eq!(rt; converted.as_str(), want, "{row}");
        if let Op::Convert(kind, from) = operation(words) {
            let composed = found(rt.alloc(), Op::Triple(kind, from), components)?;
            assert_eq!(rt; composed.as_str(), want, "{row}");
        }
    }
    Ok(())
}

#[test]
fn depths(rt: HostRuntime) -> Result<(), Fail> {
    let rows =
        "0 0 0 = -16384; 0 0 65536 = 0; 0 0 327680 = 65536; 0 0 196608 = 32768; 0 0 98304 = 8192; 0 0 -65536 = -32768; \
        0 0 2147483647 = 536854527; 0 0 -2147483647 = -536870912; 0 0 65537 = 0; 0 0 32768 = -8192";
    assert_eq!(rt; others(rt.alloc(), Op::Depth, rows)?.as_str(), "");
    Ok(())
}

// What the tables of the operators and built-in functions of the Shading Language share.
//
// A table is a text for each operation. Its rows, which `;` separates, are the operands, which `,` separates, and behind `=` the
// value, all as raws: one of a number, three of a triple. The places have negative numbers, zero, halves and both ends of the range.
// The values were computed from the formulas of docs/SHADING.md by a program that shares nothing with this one.
use builtins::applied;
use calls::texts::{raw, triple};
use fixed_math::{Num, Vec3};
use sl_ast::{Value, ValueOperation as Op};
use std::alloc::Global;
use std::test::Fail;
use transforms::{Affine, Spaces};

/// The value of these raws: a number, or a triple.
pub fn value(cell: &str) -> Result<Value, Fail> {
    if cell.trim().contains(' ') {
        Ok(Value::Triple(triple(cell)?))
    } else {
        Ok(Value::Number(raw(Some(cell.trim()))?))
    }
}

/// The raws of a value, as a table has them; a text has none.
pub fn written(alloc: Global, value: &Value) -> Result<String, Fail> {
    Ok(match value {
        Value::Number(x) => format!(in alloc; "{}", x.raw())?,
        Value::Triple(v) => format!(in alloc; "{} {} {}", v.x.raw(), v.y.raw(), v.z.raw())?,
        Value::Word(_) => format!(in alloc; "a text")?,
    })
}

/// World space lies one to the left, two below and three in front of camera space, object space is twice as wide, half as high and
/// turned over in depth, and shader space is camera space. What is seen lies at depths from one to five.
pub fn spaces() -> Result<Spaces, Fail> {
    Ok(Spaces {
        world: Affine::translate(triple("65536 131072 196608")?),
        object: Affine::scale(triple("131072 32768 -65536")?)?,
        shader: Affine::identity(),
        near: Num::sat(65536),
        far: Num::sat(327680),
        flip: false,
    })
}

/// The raws of what an operation gives on these operands.
pub fn found(alloc: Global, op: Op, operands: &str) -> Result<String, Fail> {
    let mut values = Vec::new(alloc);
    for cell in operands.split(',') {
        values.push(value(cell)?)?;
    }
    written(alloc, &applied(alloc, op, &spaces()?, &values)?)
}

/// The rows of a table in which the operation has another value, each with that value.
pub fn others(alloc: Global, op: Op, rows: &str) -> Result<String, Fail> {
    let mut others = String::new(alloc);
    for row in rows.split(';') {
        let (operands, want) = row.split_once('=').ok_or("a row without a value")?;
        let found = found(alloc, op, operands)?;
        if found.as_str() != want.trim() {
            others.push_str(row)?;
            others.push_str(" but ")?;
            others.push_str(found.as_str())?;
        }
    }
    Ok(others)
}

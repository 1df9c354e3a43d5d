// Values where one of another shape is wanted, and formulas of numbers on values.
ghost use Rattle.std.specs.Prelude.{◌≡◌, ℤ, IfOk, OnErr};
ghost use Rattle.builtins.specs.Formulas as formulas;
ghost use Rattle.builtins.specs.Triples as triples;
ghost use Rattle.builtins.specs.Values as spec;
ghost use Rattle.builtins.specs.Shapes.{shape as shape_of_value};
ghost use Rattle.builtins.specs.declared.shape.Shape.TheVariants as shapes;

use crate::formulas::{part, parts, three_parts};
use crate::shape::Shape;
use fixed_math::{NoMemory, Num, Text, Vec3};
use sl_ast::{Value, ValueOperation};
use std::alloc::Global;

/// The number of a value; of a triple its first part, and 0 of a text.
pub fn number(value: &Value) -> Num
    ensures { result ≡ spec.number_of value.now }
{
    match value {
        Value::Number(x) => *x,
        Value::Triple(t) => t.x,
        Value::Word(_) => Num::sat(0),
    }
}

/// The triple of a value: a number stands for three equal parts, and a text for three zeros.
pub fn triple(value: &Value) -> Vec3
    ensures { result ≡ spec.triple_of value.now }
{
    match value {
        Value::Number(x) => Vec3 {
            x: *x,
            y: *x,
            z: *x,
        },
        Value::Triple(t) => *t,
        Value::Word(_) => Vec3 {
            x: Num::sat(0),
            y: Num::sat(0),
            z: Num::sat(0),
        },
    }
}

// The text of a value, or the empty one.
fn word(alloc: Global, value: &Value) -> Result<Text, NoMemory>
    ensures { IfOk result (λ w. w ≡ spec.word_of value.now) }
{
    match value {
        Value::Word(w) => w.copied(alloc),
        Value::Number(_) | Value::Triple(_) => Text::from_bytes(alloc, &[]),
    }
}

/// The same value in memory of its own. Want of memory comes only of a text.
pub fn copied(alloc: Global, value: &Value) -> Result<Value, NoMemory>
    ensures value { IfOk result (λ v. v ≡ value.now) }
    ensures memory { OnErr result (shape_of_value value.now ≡ shapes.Word) }
{
    match value {
        Value::Number(x) => Ok(Value::Number(*x)),
        Value::Triple(t) => Ok(Value::Triple(*t)),
        Value::Word(w) => Ok(Value::Word(w.copied(alloc)?)),
    }
}

/// A value where one of that shape is wanted: a number stands for three equal parts. Want of memory comes only where a
/// text is wanted.
pub fn as_shape(alloc: Global, shape: Shape, value: &Value) -> Result<Value, NoMemory>
    ensures value { IfOk result (λ v. v ≡ spec.as_shape shape value.now) }
    ensures memory { OnErr result (shape ≡ shapes.Word) }
{
    match shape {
        Shape::Number => Ok(Value::Number(number(value))),
        Shape::Triple => Ok(Value::Triple(triple(value))),
        Shape::Word => Ok(Value::Word(word(alloc, value)?)),
    }
}

/// A truth as a value: 1 or 0.
pub fn truth(holds: bool) -> Value
    ensures { result ≡ spec.truth holds }
{
    if holds {
        Value::Number(Num::sat(65536))
    } else {
        Value::Number(Num::sat(0))
    }
}

/// Whether a value is a truth that holds: its number isn't 0.
pub fn is_true(value: &Value) -> bool
    ensures { result ≡ spec.is_true value.now }
{
    number(value).raw() != 0
}

fn each_part(op: ValueOperation, t: Vec3) -> Vec3
    ensures { result ≡ triples.each (formulas.part op) t }
{
    Vec3 {
        x: part(op, t.x),
        y: part(op, t.y),
        z: part(op, t.z),
    }
}

pub(crate) fn by_part(op: ValueOperation, v: &Value) -> Value
    ensures { result ≡ spec.by_part (formulas.part op) v.now }
{
    match v {
        Value::Number(x) => Value::Number(part(op, *x)),
        Value::Triple(_) | Value::Word(_) => Value::Triple(each_part(op, triple(v))),
    }
}

/// Two triples part by part, by an operation that goes so.
pub fn each_two(op: ValueOperation, a: Vec3, b: Vec3) -> Vec3
    ensures { result ≡ triples.each_two (formulas.parts op) a b }
{
    Vec3 {
        x: parts(op, a.x, b.x),
        y: parts(op, a.y, b.y),
        z: parts(op, a.z, b.z),
    }
}

pub(crate) fn by_parts(op: ValueOperation, v: &Value, w: &Value) -> Value
    ensures { result ≡ spec.by_parts (formulas.parts op) v.now w.now }
{
    match (v, w) {
        (Value::Number(x), Value::Number(y)) => Value::Number(parts(op, *x, *y)),
        _ => Value::Triple(each_two(op, triple(v), triple(w))),
    }
}

/// Three triples part by part, by an operation that goes so.
pub fn each_three(op: ValueOperation, a: Vec3, b: Vec3, c: Vec3) -> Vec3
    ensures { result ≡ spec.each_three (formulas.three_parts op) a b c }
{
    Vec3 {
        x: three_parts(op, a.x, b.x, c.x),
        y: three_parts(op, a.y, b.y, c.y),
        z: three_parts(op, a.z, b.z, c.z),
    }
}

pub(crate) fn by_three_parts(op: ValueOperation, u: &Value, v: &Value, w: &Value) -> Value
    ensures { result ≡ spec.by_three_parts (formulas.three_parts op) u.now v.now w.now }
{
    match (u, v, w) {
        (Value::Number(x), Value::Number(y), Value::Number(z)) => Value::Number(three_parts(
            op, *x, *y, *z,
        )),
        _ => Value::Triple(each_three(op, triple(u), triple(v), triple(w))),
    }
}

// The table of values.
ghost use Rattle.std.specs.Prelude.{◌≡◌, IfOk, OnErr};
ghost use Rattle.builtins.specs.Table as spec;
ghost use Rattle.builtins.specs.Shapes.{shape};
ghost use Rattle.builtins.specs.declared.shape.Shape.TheVariants as kinds;

use crate::blended::noise;
use crate::choice::{chosen, is_same};
use crate::formulas::{number_formula, order};
use crate::numbers::{smoothstep, step};
use crate::placed::{composed, placed, through};
use crate::triples::{comp, cross, depth, distance, dot, faceforward, length, normalize, reflect};
use crate::values::{by_part, by_parts, by_three_parts, copied, is_true, number, triple, truth};
use fixed_math::{NoMemory, Num, Vec3};
use sl_ast::{SlType, Value, ValueOperation as Op};
use std::alloc::Global;
use transforms::Spaces;

// Noise of a triple, or of a number: a place on the first axis.
fn noise_of(v: &Value) -> Value
    ensures { result ≡ spec.noise_of v.now }
{
    match v {
        Value::Number(x) => Value::Number(noise(Vec3 {
            x: *x,
            y: Num::sat(0),
            z: Num::sat(0),
        })),
        Value::Triple(_) | Value::Word(_) => Value::Number(noise(triple(v))),
    }
}

#[tactic(auto, unfolding(crate::specs::Table::of_one))]
fn of_one(alloc: Global, op: Op, spaces: &Spaces, v: &Value) -> Result<Value, NoMemory>
    ensures value { IfOk result (λ x. x ≡ spec.of_one op spaces.now v.now) }
    ensures memory { OnErr result (shape (spec.of_one op spaces.now v.now) ≡ kinds.Word) }
{
    match op {
        Op::Negate | Op::Abs | Op::Sign => Ok(by_part(op, v)),
        Op::Floor | Op::Ceil | Op::Round => Ok(by_part(op, v)),
        Op::Not => Ok(truth(!is_true(v))),
        Op::Convert(kind, from) => placed(alloc, kind, spaces, from, v),
        Op::Sin | Op::Cos | Op::Tan => Ok(Value::Number(number_formula(op, number(v)))),
        Op::Sqrt | Op::InverseSqrt => Ok(Value::Number(number_formula(op, number(v)))),
        Op::Exp | Op::Log => Ok(Value::Number(number_formula(op, number(v)))),
        Op::Radians | Op::Degrees => Ok(Value::Number(number_formula(op, number(v)))),
        Op::XComp => Ok(Value::Number(triple(v).x)),
        Op::YComp => Ok(Value::Number(triple(v).y)),
        Op::ZComp => Ok(Value::Number(triple(v).z)),
        Op::Length => Ok(Value::Number(length(triple(v)))),
        Op::Normalize => Ok(Value::Triple(normalize(triple(v)))),
        Op::Transform(from, into) => Ok(through(SlType::Point, spaces, from, into, v)),
        Op::VTransform(from, into) => Ok(through(SlType::Vector, spaces, from, into, v)),
        Op::NTransform(from, into) => Ok(through(SlType::Normal, spaces, from, into, v)),
        Op::Depth => Ok(Value::Number(depth(triple(v), spaces.near, spaces.far))),
        Op::Noise => Ok(noise_of(v)),
        _ => copied(alloc, v),
    }
}

#[tactic(auto, unfolding(crate::specs::Table::of_two))]
fn of_two(alloc: Global, op: Op, v: &Value, w: &Value) -> Result<Value, NoMemory>
    ensures value { IfOk result (λ x. x ≡ spec.of_two op v.now w.now) }
    ensures memory { OnErr result (shape (spec.of_two op v.now w.now) ≡ kinds.Word) }
{
    match op {
        Op::Or => Ok(truth(is_true(v) || is_true(w))),
        Op::And => Ok(truth(is_true(v) && is_true(w))),
        Op::Equal => Ok(truth(is_same(v, w))),
        Op::NotEqual => Ok(truth(!is_same(v, w))),
        Op::Less | Op::LessEqual => Ok(truth(order(op, number(v), number(w)))),
        Op::Greater | Op::GreaterEqual => Ok(truth(order(op, number(v), number(w)))),
        Op::Add | Op::Subtract | Op::Multiply | Op::Divide => Ok(by_parts(op, v, w)),
        Op::Min | Op::Max | Op::Mod => Ok(by_parts(op, v, w)),
        Op::Cross => Ok(Value::Triple(cross(triple(v), triple(w)))),
        Op::Reflect => Ok(Value::Triple(reflect(triple(v), triple(w)))),
        Op::Dot => Ok(Value::Number(dot(triple(v), triple(w)))),
        Op::Distance => Ok(Value::Number(distance(triple(v), triple(w)))),
        Op::Pow => Ok(Value::Number(number(v).pow(number(w)))),
        Op::Step => Ok(Value::Number(step(number(v), number(w)))),
        Op::Comp => Ok(Value::Number(comp(triple(v), number(w)))),
        Op::Noise => Ok(Value::Number(noise(Vec3 {
            x: number(v),
            y: number(w),
            z: Num::sat(0),
        }))),
        _ => copied(alloc, v),
    }
}

#[tactic(auto, unfolding(crate::specs::Table::of_three))]
fn of_three(
    alloc: Global,
    op: Op,
    spaces: &Spaces,
    u: &Value,
    v: &Value,
    w: &Value,
) -> Result<Value, NoMemory>
    ensures value { IfOk result (λ x. x ≡ spec.of_three op spaces.now u.now v.now w.now) }
    ensures memory { OnErr result (shape (spec.of_three op spaces.now u.now v.now w.now) ≡ kinds.Word) }
{
    match op {
        Op::Select => chosen(alloc, is_true(u), v, w),
        Op::Triple(kind, from) => {
            let parts = Vec3 {
                x: number(u),
                y: number(v),
                z: number(w),
            };
            composed(alloc, kind, spaces, from, parts)
        }
        Op::Min | Op::Max => Ok(by_parts(op, &by_parts(op, u, v), w)),
        Op::Clamp | Op::Mix => Ok(by_three_parts(op, u, v, w)),
        Op::SmoothStep => Ok(Value::Number(smoothstep(number(u), number(v), number(w)))),
        Op::FaceForward => Ok(Value::Triple(faceforward(triple(u), triple(v), triple(w)))),
        _ => copied(alloc, u),
    }
}

/// The value of an operation on its operands' values: one, two or three of them. Want of memory comes only where the
/// value is a text.
pub fn applied(
    alloc: Global,
    op: Op,
    spaces: &Spaces,
    operands: &[Value],
) -> Result<Value, NoMemory>
    ensures value { IfOk result (λ v. v ≡ spec.applied op spaces.now operands.now) }
    ensures memory { OnErr result (shape (spec.applied op spaces.now operands.now) ≡ kinds.Word) }
{
    match operands {
        [v] => of_one(alloc, op, spaces, v),
        [v, w] => of_two(alloc, op, v, w),
        [u, v, w] => of_three(alloc, op, spaces, u, v, w),
        _ => Ok(Value::Number(Num::sat(0))),
    }
}

// Comparing two values, and taking one of them.
ghost use Rattle.std.specs.Prelude.{◌≡◌, IfOk, OnErr};
ghost use Rattle.std.specs.Str.{bytes_eq};
ghost use Rattle.builtins.specs.Values as spec;
ghost use Rattle.builtins.specs.Shapes.{shape};
ghost use Rattle.builtins.specs.declared.shape.Shape.TheVariants as shapes;

use crate::values::{copied, triple};
use fixed_math::{NoMemory, Text, Vec3};
use sl_ast::Value;
use std::alloc::Global;

#[tactic(auto, using(crate::proofs::Texts::same_bytes))]
fn same_text(a: &Text, b: &Text) -> bool
    ensures { result ≡ bytes_eq a.now b.now }
{
    a.is(b)
}

/// Whether two triples are the same.
pub fn same_triple(a: Vec3, b: Vec3) -> bool
    ensures { result ≡ spec.same_triple a b }
{
    a.x.raw() == b.x.raw() && a.y.raw() == b.y.raw() && a.z.raw() == b.z.raw()
}

fn same_parts(v: &Value, w: &Value) -> bool
    ensures { result ≡ spec.same_triple (spec.triple_of v.now) (spec.triple_of w.now) }
{
    same_triple(triple(v), triple(w))
}

/// Whether two values of one type are the same, a number promoted beside a triple.
pub(crate) fn is_same(v: &Value, w: &Value) -> bool
    ensures { result ≡ spec.is_same v.now w.now }
{
    match (v, w) {
        (Value::Number(x), Value::Number(y)) => x.raw() == y.raw(),
        (Value::Word(a), Value::Word(b)) => same_text(a, b),
        _ => same_parts(v, w),
    }
}

// `w` beside `v`: a triple where the two are of different shapes.
fn beside(alloc: Global, v: &Value, w: &Value) -> Result<Value, NoMemory>
    ensures value { IfOk result (λ x. x ≡ spec.beside v.now w.now) }
    ensures memory { OnErr result (shape (spec.beside v.now w.now) ≡ shapes.Word) }
{
    match (v, w) {
        (Value::Number(_), Value::Number(y)) => Ok(Value::Number(*y)),
        (Value::Word(_), Value::Word(_)) => copied(alloc, w),
        _ => Ok(Value::Triple(triple(w))),
    }
}

/// The first of two values where the condition holds, else the second; a number promoted beside a triple.
pub(crate) fn chosen(alloc: Global, holds: bool, v: &Value, w: &Value) -> Result<Value, NoMemory>
    ensures value { IfOk result (λ x. x ≡ spec.chosen holds v.now w.now) }
    ensures memory { OnErr result (shape (spec.chosen holds v.now w.now) ≡ shapes.Word) }
{
    if holds {
        beside(alloc, w, v)
    } else {
        beside(alloc, v, w)
    }
}

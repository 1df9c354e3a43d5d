// Triples from one space to another.
ghost use Rattle.std.specs.Prelude.{◌≡◌, ℤ, [], ◌∷◌, IfOk, OnErr};
ghost use Rattle.sl_ast.specs.declared.typed.Value.TheVariants as values;
ghost use Rattle.builtins.specs.Table as spec;
ghost use Rattle.builtins.specs.Shapes.{shape};
ghost use Rattle.builtins.specs.declared.shape.Shape.TheVariants as shapes;

use crate::shape::Shape;
use crate::values::{as_shape, number, triple};
use fixed_math::{NoMemory, Num, Vec3};
use sl_ast::{SlType, SpaceName, Value};
use std::alloc::Global;
use transforms::{Affine, Spaces};

// Coordinates put into the range of raws.
fn saturated(x: i64, y: i64, z: i64) -> Vec3
    ensures { result ≡ spec.saturated (x ∷ y ∷ z ∷ []) }
{
    Vec3 {
        x: Num::sat(x as i128),
        y: Num::sat(y as i128),
        z: Num::sat(z as i128),
    }
}

/// A point, a vector or a normal through a map, put into the range of raws; a value of another type as it is.
pub fn image(kind: SlType, m: &Affine, p: Vec3) -> Vec3
    ensures { result ≡ spec.image kind m.now p }
{
    match kind {
        SlType::Point => {
            let [x, y, z] = m.point(p);
            saturated(x, y, z)
        }
        SlType::Vector => {
            let [x, y, z] = m.vector(p);
            saturated(x, y, z)
        }
        SlType::Normal => {
            let [x, y, z] = m.normal(p);
            saturated(x, y, z)
        }
        SlType::Float | SlType::Color | SlType::Str => p,
    }
}

/// A triple of that type that is given in a space, in camera space.
pub fn from_space(kind: SlType, spaces: &Spaces, from: SpaceName, p: Vec3) -> Vec3
    ensures { result ≡ spec.from_space kind spaces.now from p }
{
    match from {
        SpaceName::Current => p,
        SpaceName::World => image(kind, &spaces.world, p),
        SpaceName::Object => image(kind, &spaces.object, p),
        SpaceName::Shader => image(kind, &spaces.shader, p),
    }
}

/// A triple of that type in camera space, in another space.
pub fn into_space(kind: SlType, spaces: &Spaces, into: SpaceName, p: Vec3) -> Vec3
    ensures { result ≡ spec.into_space kind spaces.now into p }
{
    match into {
        SpaceName::Current => p,
        SpaceName::World => image(kind, &spaces.world.inverse(), p),
        SpaceName::Object => image(kind, &spaces.object.inverse(), p),
        SpaceName::Shader => image(kind, &spaces.shader.inverse(), p),
    }
}

/// A triple from the first space to the second.
pub(crate) fn through(
    kind: SlType,
    spaces: &Spaces,
    from: SpaceName,
    into: SpaceName,
    v: &Value,
) -> Value
    ensures { result ≡ spec.through kind spaces.now from into v.now }
{
    let here = from_space(kind, spaces, from, triple(v));
    Value::Triple(into_space(kind, spaces, into, here))
}

/// A value of that type whose triple was given in that space.
pub(crate) fn placed(
    alloc: Global,
    kind: SlType,
    spaces: &Spaces,
    from: SpaceName,
    v: &Value,
) -> Result<Value, NoMemory>
    ensures value { IfOk result (λ x. x ≡ spec.placed kind spaces.now from v.now) }
    ensures memory { OnErr result (shape (spec.placed kind spaces.now from v.now) ≡ shapes.Word) }
{
    match kind {
        SlType::Float => Ok(Value::Number(number(v))),
        SlType::Str => as_shape(alloc, Shape::Word, v),
        SlType::Color | SlType::Point | SlType::Vector | SlType::Normal => Ok(Value::Triple(
            from_space(kind, spaces, from, triple(v)),
        )),
    }
}

/// A value of that type of three components in that space.
pub(crate) fn composed(
    alloc: Global,
    kind: SlType,
    spaces: &Spaces,
    from: SpaceName,
    parts: Vec3,
) -> Result<Value, NoMemory>
    ensures value { IfOk result (λ x. x ≡ spec.placed kind spaces.now from (values.Triple parts)) }
    ensures memory { OnErr result (shape (spec.placed kind spaces.now from (values.Triple parts)) ≡ shapes.Word) }
{
    placed(alloc, kind, spaces, from, &Value::Triple(parts))
}

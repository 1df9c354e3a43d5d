// The primitive of a fragment in JSON.
ghost use Rattle.std.specs.Prelude.{◌≡◌, IfOk};
ghost use Rattle.serde_json.specs.View.{view};
ghost use Rattle.account_text.specs.Primitive.{mesh_json, shader_json, shader_or_none, primitive_json};

use crate::numbers::num;
use fixed_math::NoMemory;
use pixel_record::{PrimitiveAccount, ShaderRequest};
use serde_json::{Map, Value, json, put};
use std::alloc::Global;

// Where a patch stands in its mesh.
fn mesh_json(alloc: Global, place: [u32; 4]) -> Result<Value, NoMemory>
    ensures { IfOk result (λ v. view v ≡ mesh_json place) }
{
    let [column, columns, row, rows] = place;
    Ok(json!(in alloc; {"column": column, "columns": columns, "row": row, "rows": rows})?)
}

fn shader_json(alloc: Global, shader: &ShaderRequest) -> Result<Value, NoMemory>
    ensures { IfOk result (λ v. view v ≡ shader_json shader.now) }
{
    Ok(json!(in alloc; {"name": shader.name.as_str(), "line": shader.line})?)
}

fn shader_or_none(alloc: Global, shader: &Option<ShaderRequest>) -> Result<Value, NoMemory>
    ensures { IfOk result (λ v. view v ≡ shader_or_none shader.now) }
{
    match shader {
        Some(shader) => shader_json(alloc, shader),
        None => Ok(Value::Null),
    }
}

/// The primitive.
#[tactic(auto, unfolding(crate::specs::Primitive::primitive_json))]
pub(crate) fn primitive_json(alloc: Global, primitive: &PrimitiveAccount) -> Result<Value, NoMemory>
    ensures { IfOk result (λ v. view v ≡ primitive_json primitive.now) }
{
    let mesh = mesh_json(alloc, primitive.place)?;
    let surface = shader_json(alloc, &primitive.surface)?;
    let displacement = shader_or_none(alloc, &primitive.displacement)?;
    let atmosphere = shader_or_none(alloc, &primitive.atmosphere)?;
    let rate = num(alloc, primitive.rate)?;
    let bound = num(alloc, primitive.bound)?;
    let mut members = Map::new(alloc);
    put(&mut members, alloc, "surface", surface)?;
    put(&mut members, alloc, "smooth", Value::from(primitive.smooth))?;
    put(&mut members, alloc, "rate", rate)?;
    put(
        &mut members,
        alloc,
        "one_sided",
        Value::from(primitive.one_sided),
    )?;
    put(&mut members, alloc, "number", Value::from(primitive.number))?;
    put(&mut members, alloc, "moves", Value::from(primitive.moves))?;
    put(&mut members, alloc, "mesh", mesh)?;
    put(&mut members, alloc, "line", Value::from(primitive.line))?;
    put(&mut members, alloc, "flip", Value::from(primitive.flip))?;
    put(&mut members, alloc, "displacement", displacement)?;
    put(&mut members, alloc, "bound", bound)?;
    put(&mut members, alloc, "atmosphere", atmosphere)?;
    Ok(Value::Object(members))
}

// What is told of a primitive.
ghost use Rattle.std.specs.Prelude.{◌≡◌, Some, IfOk, slice_get, IfSome};
ghost use Rattle.scene.specs.Scene.{HasUses};
ghost use Rattle.pixel_account.specs.Origins.{request_at, IsPrimitive};
ghost use Rattle.pixel_account.specs.Requests.{IsThere};

use fixed_math::NoMemory;
use pixel_record::{PrimitiveAccount, ShaderRequest};
use scene::{Prim, ShaderUse};
use std::alloc::Global;

/// The request at a place among a scene's.
fn request_of(alloc: Global, uses: &[ShaderUse], place: u32) -> Result<ShaderRequest, NoMemory>
    requires { IsThere uses.now place }
    ensures { IfOk result (λ r. Some r ≡ request_at uses.now (Some place)) }
{
    let request = &uses[place as usize];
    Ok(ShaderRequest {
        name: request.name.copied(alloc)?,
        line: request.line,
    })
}

/// The request at a place, where there is one.
fn some_request(
    alloc: Global,
    uses: &[ShaderUse],
    place: Option<u32>,
) -> Result<Option<ShaderRequest>, NoMemory>
    requires { IfSome place (IsThere uses.now) }
    ensures { IfOk result (λ r. r ≡ request_at uses.now place) }
{
    match place {
        None => Ok(None),
        Some(place) => Ok(Some(request_of(alloc, uses, place)?)),
    }
}

/// What is told of the primitive of a number, where the scene's shader requests are these.
pub(crate) fn primitive_of(
    alloc: Global,
    uses: &[ShaderUse],
    number: usize,
    prim: &Prim,
) -> Result<PrimitiveAccount, NoMemory>
    requires { HasUses uses.now prim.now }
    ensures { IfOk result (IsPrimitive uses.now prim.now number) }
{
    Ok(PrimitiveAccount {
        number,
        line: prim.line,
        place: prim.place,
        surface: request_of(alloc, uses, prim.surface)?,
        displacement: some_request(alloc, uses, prim.displacement)?,
        atmosphere: some_request(alloc, uses, prim.atmosphere)?,
        rate: prim.rate,
        bound: prim.bound,
        one_sided: prim.one_sided,
        flip: prim.flip,
        smooth: prim.smooth,
        moves: prim.closing.is_some(),
    })
}

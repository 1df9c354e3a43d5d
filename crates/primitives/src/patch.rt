// A patch of a primitive.
ghost use Rattle.std.specs.Prelude.{◌≡◌, All, IfOk};
ghost use Rattle.scene.specs.Scene.{IsPlace};
ghost use Rattle.scene.specs.Seats.{IsThere};
ghost use Rattle.primitives.specs.Patches.{PatchValue, patch_with};

use fixed_math::{NoMemory, Vec3};
use quadrics::AnyPatch;
use scene::{PrimitiveVariables, RequestVariables, Seat, Shared};
use std::marker::Model;

/// A patch of a primitive: its surface in camera space, where it moves that when the shutter opens, and then that when it closes; the
/// normal of the flat face that it is a piece of, the column c of m and the row d of n that it has in its mesh, as [c, m, d, n], and its
/// values of the primitive's variables. Contracts see it as a record.
#[derive(Drop)]
pub struct PrimitivePatch {
    pub patch: AnyPatch,
    pub closing: Option<AnyPatch>,
    pub flat: Option<Vec3>,
    pub place: [u32; 4],
    pub vars: PrimitiveVariables,
}

impl Model for PrimitivePatch {
    ghost Value = { PatchValue };

    ghost view = { λ p. record { patch = p.patch; closing = p.closing; flat = p.flat; place = p.place; vars = p.vars } };

    ghost invariant = { λ p. IsPlace p.place };
}

/// The patch that stands there in its primitive, with its values of these variables.
pub(crate) fn patch_with(
    variables: &Shared<RequestVariables>,
    flat: Option<Vec3>,
    seat: Seat,
    patch: AnyPatch,
) -> Result<PrimitivePatch, NoMemory>
    requires place { IsPlace seat.place }
    requires there { All (IsThere seat) variables.now }
    ensures { IfOk result (λ p. p ≡ patch_with variables.now flat seat patch) }
{
    let vars = PrimitiveVariables::new(variables, seat)?;
    let place = seat.place;
    Ok(PrimitivePatch {
        patch,
        closing: None,
        flat,
        place,
        vars,
    })
}

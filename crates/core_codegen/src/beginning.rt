// The registers that a shader's state begins with.
ghost use Rattle.std.specs.Prelude.{◌≡◌, ◌+◌, ◌^◌, ◌<◌, ◌++◌, ◌∷◌, [], length, map, IfOk, OnOk};
ghost use Rattle.sl_ast.specs.TypedView.{local_of};
ghost use Rattle.grid_code.specs.Names.{name_at, first_free};
ghost use Rattle.grid_code.specs.Uses.{kind_registers, registers_from, given_registers as given_of};
ghost use Rattle.sl_meaning.specs.Lowered.{slots};
ghost use Rattle.core_codegen.specs.Slots.{slots_of};

use builtins::shape_of;
use fixed_math::NoMemory;
use grid_code::named::{FIRST_FREE, LIT};
use grid_code::{Register, Slot, register, register_of};
use sl_ast::{ParamDecl, Predefined, SlKind};
use std::alloc::Global;

fn name_variables(seen: &mut Vec<Register>, names: &[Predefined]) -> Result<(), NoMemory>
    ensures { OnOk result (seen.new.items ≡ seen.old.items ++ map name_at names.now) }
{
    for name in names {
        seen.push(register_of(*name))?;
    }
    Ok(())
}

// The registers of the predefined variables of a kind of shader; those of a light have whether it is lit.
fn name_kind(seen: &mut Vec<Register>, kind: SlKind) -> Result<(), NoMemory>
    ensures { OnOk result (seen.new.items ≡ seen.old.items ++ kind_registers kind) }
{
    use Predefined as P;
    match kind {
        SlKind::Surface => {
            let names = [
                P::Pi,
                P::P,
                P::N,
                P::Ng,
                P::I,
                P::E,
                P::U,
                P::V,
                P::Du,
                P::Dv,
                P::S,
                P::T,
                P::Cs,
                P::Os,
                P::DPdu,
                P::DPdv,
                P::L,
                P::Cl,
                P::Ci,
                P::Oi,
            ];
            name_variables(seen, &names)
        }
        SlKind::Displacement => {
            let names = [
                P::Pi,
                P::P,
                P::N,
                P::Ng,
                P::I,
                P::E,
                P::U,
                P::V,
                P::Du,
                P::Dv,
                P::S,
                P::T,
                P::Cs,
                P::Os,
                P::DPdu,
                P::DPdv,
            ];
            name_variables(seen, &names)
        }
        SlKind::Light => {
            seen.push(LIT)?;
            name_variables(seen, &[P::Pi, P::Ps, P::E, P::L, P::Cl])
        }
        SlKind::Volume => name_variables(seen, &[P::Pi, P::P, P::I, P::E, P::Ci, P::Oi]),
    }
}

fn name_params(seen: &mut Vec<Register>, params: &[Slot]) -> Result<(), NoMemory>
    requires fits { first_free + length params.now < 2 ^ 32 }
    ensures { OnOk result (seen.new.items ≡ seen.old.items ++ registers_from first_free params.now) }
{
    let mut next = FIRST_FREE;
    for slot in params {
        seen.push(register(slot.uniform, shape_of(slot.kind), next))?;
        next += 1;
    }
    Ok(())
}

/// The registers of a kind's predefined variables and of the parameters. The one refusal is want of memory.
pub fn given_registers(
    alloc: Global,
    kind: SlKind,
    params: &[Slot],
) -> Result<Vec<Register>, NoMemory>
    requires fits { first_free + length params.now < 2 ^ 32 }
    ensures { IfOk result (λ v. v.items ≡ given_of kind params.now) }
{
    let mut seen = Vec::new(alloc);
    name_kind(&mut seen, kind)?;
    name_params(&mut seen, params)?;
    Ok(seen)
}

/// The class and the type of each parameter. The one refusal is want of memory.
pub fn param_slots(alloc: Global, params: &[ParamDecl]) -> Result<Vec<Slot>, NoMemory>
    ensures { IfOk result (λ v. slots_of v.items ≡ slots (map local_of params.now)) }
{
    let mut slots = Vec::new(alloc);
    for param in params {
        slots.push(Slot {
            uniform: param.uniform,
            kind: param.kind,
        })?;
    }
    Ok(slots)
}

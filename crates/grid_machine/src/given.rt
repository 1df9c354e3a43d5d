// The registers that a run gives values.
ghost use Rattle.std.specs.Prelude.{◌≡◌, ◌+◌, ◌<◌, ◌++◌, IfOk, OnOk};
ghost use Rattle.builtins.specs.Values.{shape_of};
ghost use Rattle.grid_code.specs.Names.{reg, first_free};
ghost use Rattle.grid_code.specs.Uses.{registers_from};
ghost use Rattle.place_rows.specs.Layout.{same_class};
ghost use Rattle.grid_machine.specs.Run as spec;

use builtins::shape_of;
use bumpalo::Bump;
use bumpalo::collections::into_bump_slice;
use fixed_math::NoMemory;
use grid_code::named::{self, FIRST_FREE};
use grid_code::{Register, Slot, register};
use sl_ast::SlKind;

/// The varying variables that a kind is given: those that it reads alone, and then those that it writes.
pub fn given(kind: SlKind) -> &'static [Register]
    ensures { result.now ≡ spec.given_names kind }
{
    match kind {
        SlKind::Surface => &[
            named::P,
            named::N,
            named::NG,
            named::I,
            named::U,
            named::V,
            named::S,
            named::T,
            named::CS,
            named::OS,
            named::DPDU,
            named::DPDV,
        ],
        SlKind::Displacement => &[
            named::NG,
            named::I,
            named::U,
            named::V,
            named::S,
            named::T,
            named::CS,
            named::OS,
            named::DPDU,
            named::DPDV,
            named::P,
            named::N,
        ],
        SlKind::Volume => &[named::P, named::I, named::CI, named::OI],
        SlKind::Light => &[named::PS],
    }
}

/// The steps of the parameters of a surface.
pub fn steps(kind: SlKind) -> &'static [Register]
    ensures { result.now ≡ spec.step_names kind }
{
    match kind {
        SlKind::Surface | SlKind::Displacement => &[named::DU, named::DV],
        SlKind::Volume | SlKind::Light => &[],
    }
}

fn is_same(a: bool, b: bool) -> bool
    ensures { result ≡ same_class a b }
{
    a == b
}

// The register of a parameter by its place; no place too far to be numbered.
fn parameter(n: usize, slot: &Slot) -> Result<Register, NoMemory>
    requires { n + first_free < usize.MAX }
    ensures { IfOk result (λ r. r ≡ reg slot.now.uniform (shape_of slot.now.kind) (n + first_free)) }
{
    match u32::try_from(n + FIRST_FREE as usize) {
        Ok(number) => Ok(register(slot.uniform, shape_of(slot.kind), number)),
        Err(_) => Err(NoMemory),
    }
}

// Adds the registers of the parameters of a class.
fn add_inputs(
    registers: &mut Vec<Register, &Bump>,
    params: &[Slot],
    uniform: bool,
) -> Result<(), NoMemory>
    ensures { OnOk result (registers.new.items ≡ registers.old.items ++ spec.params_of uniform first_free params.now) }
{
    for n in 0..params.len() {
        if is_same(params[n].uniform, uniform) {
            registers.push(parameter(n, &params[n])?)?;
        }
    }
    Ok(())
}

// Adds the registers of all parameters.
fn add_parameters(registers: &mut Vec<Register, &Bump>, params: &[Slot]) -> Result<(), NoMemory>
    ensures { OnOk result (registers.new.items ≡ registers.old.items ++ registers_from first_free params.now) }
{
    for n in 0..params.len() {
        registers.push(parameter(n, &params[n])?)?;
    }
    Ok(())
}

/// The registers of the parameters of a class, and then others. More parameters than registers can be numbered are want of memory.
pub fn inputs<'a>(
    arena: &'a Bump,
    params: &[Slot],
    uniform: bool,
    others: &[Register],
) -> Result<&'a [Register], NoMemory>
    ensures { IfOk result (λ v. v.now ≡ spec.params_of uniform first_free params.now ++ others.now) }
{
    let mut registers = Vec::new(arena);
    add_inputs(&mut registers, params, uniform)?;
    registers.extend_from_slice(others)?;
    Ok(into_bump_slice(registers))
}

/// The registers of all parameters in order. More parameters than registers can be numbered are want of memory.
pub fn parameters<'a>(arena: &'a Bump, params: &[Slot]) -> Result<&'a [Register], NoMemory>
    ensures { IfOk result (λ v. v.now ≡ registers_from first_free params.now) }
{
    let mut registers = Vec::new(arena);
    add_parameters(&mut registers, params)?;
    Ok(into_bump_slice(registers))
}

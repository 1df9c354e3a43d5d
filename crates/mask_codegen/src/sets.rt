// Sets of registers.
ghost use Rattle.std.specs.Prelude.{◌≡◌, ℕ, IfOk, OnOk};
ghost use Rattle.std.specs.List.{Contains};
ghost use Rattle.std.specs.List.Sorted.{IsStrictlyIncreasing};
ghost use Rattle.grid_code.specs.Masked.{same_shape};
ghost use Rattle.mask_codegen.specs.Collected.{is_of as is_of_class, number_of, numbers_among, IsSetOf};

use builtins::Shape;
use fixed_math::{List, NoMemory};
use grid_code::{Register, RegisterSet};
use std::alloc::Global;

fn is_same(a: Shape, b: Shape) -> bool
    ensures { result ≡ same_shape a b }
{
    match (a, b) {
        (Shape::Number, Shape::Number)
        | (Shape::Triple, Shape::Triple)
        | (Shape::Word, Shape::Word) => true,
        _ => false,
    }
}

fn is_of(register: Register, uniform: bool, shape: Shape) -> bool
    ensures { result ≡ is_of_class uniform shape register }
{
    match register {
        Register::Uniform(s, _) => uniform && is_same(shape, s),
        Register::Varying(s, _) => !uniform && is_same(shape, s),
    }
}

fn number(register: Register) -> u32
    ensures { result ≡ number_of register }
{
    match register {
        Register::Uniform(_, number) | Register::Varying(_, number) => number,
    }
}

// The numbers of the registers of that class and shape.
fn matching(
    alloc: Global,
    seen: &[Register],
    uniform: bool,
    shape: Shape,
) -> Result<Vec<u32>, NoMemory>
    ensures { IfOk result (λ v. v.items ≡ numbers_among uniform shape seen.now) }
{
    let mut numbers = Vec::new(alloc);
    for register in seen {
        if is_of(*register, uniform, shape) {
            numbers.push(number(*register))?;
        }
    }
    Ok(numbers)
}

// The numbers in order, each once.
fn rising(numbers: &mut Vec<u32>)
    ensures rises { IsStrictlyIncreasing numbers.new.items }
    ensures keeps { (x : ℕ) → Contains numbers.old.items x → Contains numbers.new.items x }
    ensures adds_none { (x : ℕ) → Contains numbers.new.items x → Contains numbers.old.items x }
{
    numbers.sort_unstable();
    numbers.dedup();
}

fn numbers(
    alloc: Global,
    seen: &[Register],
    uniform: bool,
    shape: Shape,
) -> Result<Vec<u32>, NoMemory>
    ensures rises { IfOk result (λ v. IsStrictlyIncreasing v.items) }
    ensures keeps { IfOk result (λ v. (x : ℕ) → Contains (numbers_among uniform shape seen.now) x → Contains v.items x) }
    ensures adds_none { IfOk result (λ v. (x : ℕ) → Contains v.items x → Contains (numbers_among uniform shape seen.now) x) }
{
    let mut numbers = matching(alloc, seen, uniform, shape)?;
    rising(&mut numbers);
    Ok(numbers)
}

/// The set of the registers of one class among those seen.
pub(crate) fn set_of(
    alloc: Global,
    seen: &[Register],
    uniform: bool,
) -> Result<RegisterSet, NoMemory>
    ensures { IfOk result (λ set. IsSetOf set uniform seen.now) }
{
    let ones = numbers(alloc, seen, uniform, Shape::Number)?;
    let triples = numbers(alloc, seen, uniform, Shape::Triple)?;
    let words = numbers(alloc, seen, uniform, Shape::Word)?;
    Ok(RegisterSet {
        numbers: List(ones),
        triples: List(triples),
        words: List(words),
    })
}

// The accounts of samples, by what shows at them.
ghost use Rattle.std.specs.Prelude.{◌≡◌, All, IfOk, Some, map, slice_get};
ghost use Rattle.scene.specs.Scene.{HasUses, PrimValue};
ghost use Rattle.shader_binding.specs.Sets.{AcceptedValue};
ghost use Rattle.hider.specs.declared.sample.Sample.{Sample};
ghost use Rattle.pixel_account.specs.Account.{IsFragment, IsSample};
ghost use Rattle.pixel_account.specs.Traces.{IsTrace};
ghost use Rattle.pixel_account.specs.Stacks.{OfPixel, IsDone};

use crate::laid::{Laid, laid_with, nothing};
use crate::leaves::prims_of;
use crate::primitives::primitive_of;
use crate::stacks::Stack;
use crate::traces::Trace;
use fixed_math::{List, NoMemory};
use pixel_record::{FragmentAccount, SampleAccount};
use scene::{Frame, ShaderUse};
use std::alloc::Global;

/// The account of a fragment, with what it and those before it make.
fn fragment_of(
    alloc: Global,
    frame: &Frame,
    uses: &[ShaderUse],
    trace: &Trace,
    laid: &Laid,
) -> Result<FragmentAccount, NoMemory>
    ghost accepted: { AcceptedValue }
    requires uses { uses.now ≡ accepted.scene.uses }
    requires prims { All (HasUses accepted.scene.uses) frame.now.prims }
    requires there { (p : PrimValue) × (slice_get frame.now.prims trace.now.cell.piece.prim ≡ Some p) }
    ensures is { IfOk result (λ x. (s : Sample) → IsTrace accepted frame.now s trace.now → IsFragment accepted frame.now s x) }
    ensures fragment { IfOk result (λ x. x.fragment ≡ trace.now.fragment) }
    ensures colour { IfOk result (λ x. x.colour ≡ laid.now.colour) }
    ensures passed { IfOk result (λ x. x.passed ≡ laid.now.passed) }
{
    let number = trace.cell.piece.prim as usize;
    let primitive = primitive_of(alloc, uses, number, &prims_of(frame)[number])?;
    Ok(FragmentAccount {
        fragment: trace.fragment,
        primitive,
        cell: trace.cell,
        seen: trace.seen,
        colour: laid.colour,
        passed: laid.passed,
    })
}

/// The account of a sample.
fn sample_of(
    alloc: Global,
    frame: &Frame,
    uses: &[ShaderUse],
    stack: &Stack,
) -> Result<SampleAccount, NoMemory>
    ghost of: { OfPixel }
    requires uses { uses.now ≡ of.accepted.scene.uses }
    requires prims { All (HasUses of.accepted.scene.uses) frame.now.prims }
    requires done { IsDone of.accepted frame.now of.x of.y stack.now }
    ensures sample { IfOk result (λ s. s.sample ≡ stack.now.sample) }
    ensures is { IfOk result (IsSample of.accepted frame.now of.x of.y) }
{
    let mut fragments = Vec::new(alloc);
    let mut laid = nothing();
    for trace in stack.traces.as_slice() {
        laid = laid_with(&laid, &trace.fragment);
        fragments.push(fragment_of(alloc, frame, uses, trace, &laid)?)?;
    }
    Ok(SampleAccount {
        sample: stack.sample,
        weight: stack.weight,
        fragments: List(fragments),
        colour: laid.colour,
    })
}

/// The accounts of all samples.
pub(crate) fn samples_of(
    alloc: Global,
    frame: &Frame,
    uses: &[ShaderUse],
    stacks: &[Stack],
) -> Result<List<SampleAccount>, NoMemory>
    ghost of: { OfPixel }
    requires uses { uses.now ≡ of.accepted.scene.uses }
    requires prims { All (HasUses of.accepted.scene.uses) frame.now.prims }
    requires done { All (IsDone of.accepted frame.now of.x of.y) stacks.now }
    ensures samples { IfOk result (λ l. map (λ s. s.sample) l ≡ map (λ k. k.sample) stacks.now) }
    ensures each { IfOk result (λ l. All (IsSample of.accepted frame.now of.x of.y) l) }
{
    let mut samples = Vec::new(alloc);
    for stack in stacks {
        samples.push(sample_of(alloc, frame, uses, stack)?)?;
    }
    Ok(List(samples))
}

// The registers that code names.
ghost use Rattle.std.specs.Prelude.{◌≡◌, ◌++◌, ◌∷◌, [], OnOk};
ghost use Rattle.grid_code.specs.Code as c;
ghost use Rattle.grid_code.specs.View.{with_node, block_of};
ghost use Rattle.mask_codegen.specs.Collected.{source_registers, registers_of};

use fixed_math::NoMemory;
use grid_code::{Node, Register, Source};

fn name(seen: &mut Vec<Register>, register: Register) -> Result<(), NoMemory>
    ensures { OnOk result (seen.new.items ≡ seen.old.items ++ register ∷ []) }
{
    seen.push(register)?;
    Ok(())
}

fn name_each(seen: &mut Vec<Register>, registers: &[Register]) -> Result<(), NoMemory>
    ensures { OnOk result (seen.new.items ≡ seen.old.items ++ registers.now) }
{
    seen.extend_from_slice(registers)?;
    Ok(())
}

fn name_source(source: &Source, seen: &mut Vec<Register>) -> Result<(), NoMemory>
    ensures { OnOk result (seen.new.items ≡ seen.old.items ++ source_registers source.now) }
{
    match source {
        Source::Constant(_) => Ok(()),
        Source::Copy(from) | Source::Into(_, from) => name(seen, *from),
        Source::Apply(_, operands) => name_each(seen, operands.as_slice()),
    }
}

fn name_put(to: Register, source: &Source, seen: &mut Vec<Register>) -> Result<(), NoMemory>
    ensures { OnOk result (seen.new.items ≡ seen.old.items ++ to ∷ source_registers source.now) }
{
    name(seen, to)?;
    name_source(source, seen)
}

fn name_with(to: Register, args: &[Register], seen: &mut Vec<Register>) -> Result<(), NoMemory>
    ensures { OnOk result (seen.new.items ≡ seen.old.items ++ to ∷ args.now) }
{
    name(seen, to)?;
    name_each(seen, args)
}

#[cycle(named)]
fn name_node(node: &Node, seen: &mut Vec<Register>) -> Result<(), NoMemory>
    ensures { OnOk result (seen.new.items ≡ seen.old.items ++ registers_of (with_node node.now c.end)) }
{
    match node {
        Node::Put { to, source } => name_put(*to, source, seen),
        Node::Differ { to, of, .. } => name_each(seen, &[*to, *of]),
        Node::Sum { to, args, .. } => name_with(*to, args.as_slice(), seen),
        Node::Texture { to, args, .. } => name_with(*to, args.as_slice(), seen),
        Node::If {
            test,
            then,
            otherwise,
        } => {
            name(seen, *test)?;
            name_all(then.as_slice(), seen)?;
            name_all(otherwise.as_slice(), seen)
        }
        Node::Loop {
            ask,
            test,
            step,
            body,
            ..
        } => {
            name_all(ask.as_slice(), seen)?;
            name(seen, *test)?;
            name_all(step.as_slice(), seen)?;
            name_all(body.as_slice(), seen)
        }
        Node::Lights { args, body, .. } => {
            name_each(seen, args.as_slice())?;
            name_all(body.as_slice(), seen)
        }
        Node::Break | Node::Continue => Ok(()),
    }
}

/// The registers that nodes read or write, behind those that were seen.
#[cycle(named)]
pub(crate) fn name_all(nodes: &[Node], seen: &mut Vec<Register>) -> Result<(), NoMemory>
    ensures { OnOk result (seen.new.items ≡ seen.old.items ++ registers_of (block_of nodes.now)) }
{
    for node in nodes {
        name_node(node, seen)?;
    }
    Ok(())
}

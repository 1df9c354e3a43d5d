// The texts of a run.
ghost use Rattle.std.specs.Prelude.{◌≡◌, ◌++◌, IfOk, OnOk, map};
ghost use Rattle.grid_code.specs.Code.{end};
ghost use Rattle.grid_code.specs.View.{with_node, block_of};
ghost use Rattle.grid_code.specs.Texts as spec;

use crate::code::{Node, Source};
use crate::shader_code::Code;
use bumpalo::Bump;
use fixed_math::{NoMemory, Text};
use sl_ast::Value;

fn collect_value<'a>(value: &'a Value, texts: &mut Vec<&'a Text, &'a Bump>) -> Result<(), NoMemory>
    ensures { OnOk result (map (λ t. t.now) texts.new.items ≡ map (λ t. t.now) texts.old.items ++ spec.texts_of value.now) }
{
    if let Value::Word(w) = value {
        texts.push(w)?;
    }
    Ok(())
}

// Adds the texts of values.
fn collect_values<'a>(
    values: &'a [Value],
    texts: &mut Vec<&'a Text, &'a Bump>,
) -> Result<(), NoMemory>
    ensures { OnOk result (map (λ t. t.now) texts.new.items ≡ map (λ t. t.now) texts.old.items ++ spec.texts_of_all values.now) }
{
    for value in values {
        collect_value(value, texts)?;
    }
    Ok(())
}

// Adds the text of a constant.
fn collect_source<'a>(
    source: &'a Source,
    texts: &mut Vec<&'a Text, &'a Bump>,
) -> Result<(), NoMemory>
    ensures { OnOk result (map (λ t. t.now) texts.new.items ≡ map (λ t. t.now) texts.old.items ++ spec.texts_of_source source.now) }
{
    match source {
        Source::Constant(value) => collect_value(value, texts),
        Source::Copy(_) | Source::Into(_, _) | Source::Apply(_, _) => Ok(()),
    }
}

// Adds the texts of the constants of a block.
#[cycle(collect)]
fn collect<'a>(nodes: &'a [Node], texts: &mut Vec<&'a Text, &'a Bump>) -> Result<(), NoMemory>
    ensures { OnOk result (map (λ t. t.now) texts.new.items ≡ map (λ t. t.now) texts.old.items ++ spec.texts_in (block_of nodes.now)) }
{
    for node in nodes {
        collect_node(node, texts)?;
    }
    Ok(())
}

#[cycle(collect)]
fn collect_node<'a>(node: &'a Node, texts: &mut Vec<&'a Text, &'a Bump>) -> Result<(), NoMemory>
    ensures { OnOk result (map (λ t. t.now) texts.new.items ≡ map (λ t. t.now) texts.old.items ++ spec.texts_in (with_node node.now end)) }
{
    match node {
        Node::Put { source, .. } => collect_source(source, texts),
        Node::If {
            then,
            otherwise,
            ..
        } => {
            collect(then.as_slice(), texts)?;
            collect(otherwise.as_slice(), texts)
        }
        Node::Loop {
            ask,
            step,
            body,
            ..
        } => {
            collect(ask.as_slice(), texts)?;
            collect(step.as_slice(), texts)?;
            collect(body.as_slice(), texts)
        }
        Node::Lights { body, .. } => collect(body.as_slice(), texts),
        Node::Differ { .. }
        | Node::Sum { .. }
        | Node::Texture { .. }
        | Node::Break
        | Node::Continue => Ok(()),
    }
}

/// The texts of values and of the constants of code.
pub fn gather<'a>(
    arena: &'a Bump,
    values: &'a [Value],
    code: &'a Code,
) -> Result<Vec<&'a Text, &'a Bump>, NoMemory>
    ensures { IfOk result (λ ts. map (λ t. t.now) ts.items ≡ spec.texts_of_all values.now ++ spec.texts_in (block_of code.now.nodes)) }
{
    let mut texts = Vec::new(arena);
    collect_values(values, &mut texts)?;
    collect(code.nodes.as_slice(), &mut texts)?;
    Ok(texts)
}

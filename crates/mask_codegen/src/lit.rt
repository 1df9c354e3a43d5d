// Whether code has statements over lights.
ghost use Rattle.std.specs.Prelude.{◌≡◌, ◌||◌};
ghost use Rattle.grid_code.specs.Code as c;
ghost use Rattle.grid_code.specs.Valid.{has_light_statement, is_ambient as is_ambient_code};
ghost use Rattle.grid_code.specs.View.{with_node, block_of};

use grid_code::Node;
use sl_ast::SlKind;

// Whether one of two holds: a call, so that what follows has one case and not two.
fn either(a: bool, b: bool) -> bool
    ensures { result ≡ a || b }
{
    a || b
}

#[cycle(lit)]
fn node_has(node: &Node) -> bool
    ensures { result ≡ has_light_statement (with_node node.now c.end) }
{
    match node {
        Node::Lights { .. } => true,
        Node::If {
            then,
            otherwise,
            ..
        } => {
            let a = has_lights(then.as_slice());
            let b = has_lights(otherwise.as_slice());
            either(a, b)
        }
        Node::Loop {
            ask,
            step,
            body,
            ..
        } => {
            let a = has_lights(ask.as_slice());
            let b = has_lights(step.as_slice());
            let c = has_lights(body.as_slice());
            either(a, either(b, c))
        }
        Node::Put { .. }
        | Node::Differ { .. }
        | Node::Sum { .. }
        | Node::Texture { .. }
        | Node::Break
        | Node::Continue => false,
    }
}

// Whether a statement over lights stands in the nodes.
#[cycle(lit)]
fn has_lights(nodes: &[Node]) -> bool
    ensures { result ≡ has_light_statement (block_of nodes.now) }
{
    for node in nodes {
        if node_has(node) {
            return true;
        }
    }
    false
}

/// Whether it is the code of a light with neither `illuminate` nor `solar`.
pub(crate) fn is_ambient(kind: SlKind, nodes: &[Node]) -> bool
    ensures { result ≡ is_ambient_code kind (block_of nodes.now) }
{
    match kind {
        SlKind::Light => !has_lights(nodes),
        SlKind::Surface | SlKind::Displacement | SlKind::Volume => false,
    }
}

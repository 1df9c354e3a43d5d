// Whether code asks lights.
ghost use Rattle.std.specs.Prelude.{◌≡◌, ◌||◌};
ghost use Rattle.grid_code.specs.Code as c;
ghost use Rattle.grid_code.specs.View.{with_node, block_of};
ghost use Rattle.displace_shade.specs.Unlit.{asks_lights as asks};

use grid_code::Node;

// Whether one of two holds: a call, so that what follows has one case and not two.
fn either(a: bool, b: bool) -> bool
    ensures { result ≡ a || b }
{
    a || b
}

#[cycle(asking)]
fn node_asks(node: &Node) -> bool
    ensures { result ≡ asks (with_node node.now c.end) }
{
    match node {
        Node::Sum { .. } | Node::Lights { .. } => true,
        Node::If {
            then,
            otherwise,
            ..
        } => {
            let a = asks_lights(then.as_slice());
            let b = asks_lights(otherwise.as_slice());
            either(a, b)
        }
        Node::Loop {
            ask,
            step,
            body,
            ..
        } => {
            let a = asks_lights(ask.as_slice());
            let b = asks_lights(step.as_slice());
            let c = asks_lights(body.as_slice());
            either(a, either(b, c))
        }
        Node::Put { .. }
        | Node::Differ { .. }
        | Node::Texture { .. }
        | Node::Break
        | Node::Continue => false,
    }
}

/// Whether a sum over lights or a statement over them stands in the nodes.
#[cycle(asking)]
pub(crate) fn asks_lights(nodes: &[Node]) -> bool
    ensures { result ≡ asks (block_of nodes.now) }
{
    for node in nodes {
        if node_asks(node) {
            return true;
        }
    }
    false
}

// Shaders' functions at every point of a grid of three by five points: what the compiled code leaves there is what the same function
// gives by itself, evaluated as a parameter's default.
ghost use Rattle.std.specs.Prelude.{IfOk};
ghost use Rattle.sl_ast.specs.Settled.{IsSettled};
ghost use Rattle.sl_ast.specs.TreeView.{tree_of};

use crate::shading::shaded;
use fixed_math::Num;
use sl_ast::{Tree, Value};
use sl_evaluation::default_value;
use sl_parser::parse;
use sl_types::check;
use std::alloc::Global;
use std::test::Fail;
use transforms::{Affine, Spaces};

// Bodies of a function of two floats: expressions, branches, loops with their budgets, `break` and `continue`. At each @ the word
// `uniform` may stand.
const BODIES: [&str; 13] = [
    "return a + b * 2 - 0.25;",
    "@float k = 0; while (k < 10) { if (a < 0.5) break; k += 1; } return k / 10;",
    "@float k = 0; @float i; for (i = 0; i < 6; i += 1) { if (mod(i, 2) == a * 2) continue; k += b + 0.125; } return k;",
    "@float r; if (a < b) r = sin(a); else if (a == b) r = 1; else r = cos(b); return r;",
    "@float i; @float j; @float s = 0; for (i = 0; i < 4; i += 1) { for (j = 0; j < 4; j += 1) { if (j > i + a) break; s += i * j + b; } if (s > 10 * b + 1) break; } return s / 16;",
    "return noise(a * 3, b * 5);",
    "return a < 0.5 ? smoothstep(0, 1, b) : mix(a, b, 0.25);",
    "@point q = point (a, b, a - b); return length(q) + distance(q, point (1, 1, 1)) / 4;",
    "@vector w = normalize(vector (a, b, 0.5)); return (w . vector (0, 1, 0)) + xcomp(w ^ vector (b, 0, 1));",
    "@color c = color (a, b, 1) * 0.5; c += color (b, 0, a); return comp(c, 0) + comp(c, 1) * comp(c, 2);",
    "@float g = a; @float n = 0; while (n < 9) { g = g * 0.75 + b * 0.125; n += 1 + a; } return g;",
    "@float k = 1; while (k < 1000) { if (b == 0.25) { k += 500; continue; } k *= 2 + a; } return log(k) + pow(a + 0.5, b);",
    "@float k = 0; if (a == 0.5) { if (b == 0.5) while (k < 40) k += 1; } return k + a;",
];

fn spaces() -> Spaces {
    Spaces {
        world: Affine::identity(),
        object: Affine::identity(),
        shader: Affine::identity(),
        near: Num::sat(1),
        far: Num::sat(65536),
        flip: false,
    }
}

// The typed tree of a shader.
fn typed(alloc: Global, text: &str) -> Result<Tree, Fail>
    ensures { IfOk result (λ t. IsSettled (tree_of t)) }
{
    if text.len() > 1048576 {
        return Err("length")?;
    }
    let Ok(shader) = parse(alloc, text.as_bytes()) else {
        return Err("grammar")?;
    };
    match check(alloc, &shader) {
        Ok(tree) => Ok(tree),
        Err(_) => Err("types")?,
    }
}

// The raw that a function of this body gives for two arguments in quarters, as a parameter's default.
fn value_alone(alloc: Global, body: &str, a: u32, b: u32) -> Result<i64, Fail> {
    let text = format!(in alloc;
        "float f(uniform float a; uniform float b) {{ {body} }} surface m(float k = f({a} / 4, {b} / 4);) {{ }}"
    )?;
    let tree = typed(alloc, text.as_str())?;
    if tree.params.len() == 0 {
        return Err("a parameter")?;
    }
    match default_value(alloc, &tree, 0, &spaces())? {
        Value::Number(x) => Ok(x.raw()),
        _ => Err("a number")?,
    }
}

// The same at all points of the grid, by rows, as the three parts of a colour: u goes by halves and v by quarters.
fn values_alone(alloc: Global, body: &str) -> Result<String, Fail> {
    let body = body.replace(alloc, "@", "uniform ")?;
    let mut text = String::new(alloc);
    for place in 0..15 {
        if place > 0 {
            text.push_str(", ")?;
        }
        let x = value_alone(alloc, body.as_str(), place % 3 * 2, place / 3)?;
        text.push_str(format!(in alloc; "{x} {x} {x}")?.as_str())?;
    }
    Ok(text)
}

// What a surface whose colour is that function of u and v leaves at the points.
fn values_on_a_grid(alloc: Global, body: &str) -> Result<String, Fail> {
    let body = body.replace(alloc, "@", "")?;
    let text = format!(in alloc;
        "float f(float a; float b) {{ {body} }} surface m() {{ Ci = f(u, v); }}"
    )?;
    shaded(alloc, "", text.as_str())
}

#[test]
fn grids_agree_with_single_points(rt: HostRuntime) -> Result<(), Fail> {
    for body in BODIES {
        let found = values_on_a_grid(rt.alloc(), body)?;
        let alone = values_alone(rt.alloc(), body)?;
        assert_eq!(rt; found.as_str(), alone.as_str(), "{body}");
    }
    Ok(())
}

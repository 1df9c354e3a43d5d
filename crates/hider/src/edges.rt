// The side of an edge on which a place lies, and which edges own the places on them.
ghost use Rattle.std.specs.Prelude.{◌≡◌, ◌≤◌, ◌^◌, ◌-ℤ◌, ◌*ℤ◌, unsigned_abs};
ghost use Rattle.fixed_math.specs.Edges.{edge, owns, by_side, is_inside};

use crate::spot::Spot;

fn less(a: i64, b: i64) -> i64
    requires small_a { unsigned_abs a ≤ 268435456 }
    requires small_b { unsigned_abs b ≤ 268435456 }
    ensures value { result ≡ a -ℤ b }
    ensures bound { unsigned_abs result ≤ 536870912 }
{
    a - b
}

fn times(a: i64, b: i64) -> i64
    requires small_a { unsigned_abs a ≤ 536870912 }
    requires small_b { unsigned_abs b ≤ 536870912 }
    ensures value { result ≡ a *ℤ b }
    ensures bound { unsigned_abs result ≤ 2 ^ 58 }
{
    a * b
}

/// Twice the area of the triangle `a`, `b`, `s`, with the sign of its turn.
pub fn edge_at(a: Spot, b: Spot, s: Spot) -> i64
    ensures value { result ≡ edge a b s }
    ensures bound { unsigned_abs result ≤ 2 ^ 59 }
{
    let across = times(less(b.x(), a.x()), less(s.y(), a.y()));
    let down = times(less(b.y(), a.y()), less(s.x(), a.x()));
    across - down
}

/// Whether an edge with this step owns the samples on it.
fn owns_edge(dx: i64, dy: i64) -> bool
    ensures { result ≡ owns dx dy }
{
    dy < 0 || dy == 0 && dx > 0
}

/// Whether the side of an edge on which a place lies is the inner one, or the place lies on the edge and is its own.
fn is_on_side(side: i64, owned: bool) -> bool
    ensures { result ≡ by_side side owned }
{
    side > 0 || side == 0 && owned
}

/// Whether the edge from `a` to `b` owns the places on it.
fn owns_places(a: Spot, b: Spot) -> bool
    ensures { result ≡ owns (b.x -ℤ a.x) (b.y -ℤ a.y) }
{
    owns_edge(less(b.x(), a.x()), less(b.y(), a.y()))
}

/// Whether a place lies inside the edge from `a` to `b`, or on it where the edge owns it, by its side. Few places lie on edges.
pub(crate) fn is_inner(side: i64, a: Spot, b: Spot) -> bool
    ensures { result ≡ by_side side (owns (b.x -ℤ a.x) (b.y -ℤ a.y)) }
{
    side > 0 || side == 0 && owns_places(a, b)
}

/// Whether `s` lies inside the edge from `a` to `b`, or on it where the edge owns it.
#[tactic(auto, unfolding(fixed_math::specs::Edges::is_inside))]
pub fn is_inside_edge(a: Spot, b: Spot, s: Spot) -> bool
    ensures { result ≡ is_inside a b s }
{
    is_on_side(edge_at(a, b, s), owns_places(a, b))
}

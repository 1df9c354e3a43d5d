// Operations chosen once for a row.
ghost use Rattle.std.specs.Prelude.{◌≡◌, ℕ, ◌<◌, pos, length, get_or};
ghost use Rattle.builtins.specs.Formulas as formulas;
ghost use Rattle.number_rows.specs.Planes.{plane_at, IsPlane};
ghost use Rattle.number_rows.specs.Truths.{truth};

use crate::comparing::{Greater, GreaterEqual, Less, LessEqual};
use crate::kernels::{
    Abs, Add, Ceil, Clamped, Cosine, Degrees, Divide, Exponential, Floor, Greatest, InverseRoot,
    Least, Logarithm, Mixed, Multiply, Negate, Radians, Remainder, Root, Round, Sign, Sine,
    Subtract, Tangent,
};
use crate::loops::{copy, fill, one_plane, three_planes, two_planes};
use crate::plane::Plane;
use crate::raw::Raw;
use sl_ast::ValueOperation as Op;

/// One part of a value at each place, by an operation that goes part by part.
pub fn part_row(op: Op, a: &Plane, out: &mut [Raw])
    requires { IsPlane (length out.old) a.now }
    ensures long { length out.new ≡ length out.old }
    ensures each { (i : ℕ) → i < length out.old → get_or out.new i (pos 0) ≡ formulas.part op (plane_at a.now i) }
{
    match op {
        Op::Negate => one_plane::<Negate>(a, out),
        Op::Abs => one_plane::<Abs>(a, out),
        Op::Sign => one_plane::<Sign>(a, out),
        Op::Floor => one_plane::<Floor>(a, out),
        Op::Ceil => one_plane::<Ceil>(a, out),
        Op::Round => one_plane::<Round>(a, out),
        _ => copy(a, out),
    }
}

/// A number of a number at each place, by an operation that is a formula of one.
pub fn number_row(op: Op, a: &Plane, out: &mut [Raw])
    requires { IsPlane (length out.old) a.now }
    ensures long { length out.new ≡ length out.old }
    ensures each { (i : ℕ) → i < length out.old → get_or out.new i (pos 0) ≡ formulas.number op (plane_at a.now i) }
{
    match op {
        Op::Sin => one_plane::<Sine>(a, out),
        Op::Cos => one_plane::<Cosine>(a, out),
        Op::Tan => one_plane::<Tangent>(a, out),
        Op::Sqrt => one_plane::<Root>(a, out),
        Op::InverseSqrt => one_plane::<InverseRoot>(a, out),
        Op::Exp => one_plane::<Exponential>(a, out),
        Op::Log => one_plane::<Logarithm>(a, out),
        Op::Radians => one_plane::<Radians>(a, out),
        Op::Degrees => one_plane::<Degrees>(a, out),
        _ => copy(a, out),
    }
}

/// One part of two values at each place, by an operation that goes part by part.
pub fn parts_rows(op: Op, a: &Plane, b: &Plane, out: &mut [Raw])
    requires a { IsPlane (length out.old) a.now }
    requires b { IsPlane (length out.old) b.now }
    ensures long { length out.new ≡ length out.old }
    ensures each { (i : ℕ) → i < length out.old → get_or out.new i (pos 0) ≡ formulas.parts op (plane_at a.now i) (plane_at b.now i) }
{
    match op {
        Op::Add => two_planes::<Add>(a, b, out),
        Op::Subtract => two_planes::<Subtract>(a, b, out),
        Op::Multiply => two_planes::<Multiply>(a, b, out),
        Op::Divide => two_planes::<Divide>(a, b, out),
        Op::Min => two_planes::<Least>(a, b, out),
        Op::Max => two_planes::<Greatest>(a, b, out),
        Op::Mod => two_planes::<Remainder>(a, b, out),
        _ => copy(a, out),
    }
}

/// One part of three values at each place, by an operation that goes part by part.
pub fn three_parts_rows(op: Op, a: &Plane, b: &Plane, c: &Plane, out: &mut [Raw])
    requires a { IsPlane (length out.old) a.now }
    requires b { IsPlane (length out.old) b.now }
    requires c { IsPlane (length out.old) c.now }
    ensures long { length out.new ≡ length out.old }
    ensures each { (i : ℕ) → i < length out.old → get_or out.new i (pos 0) ≡ formulas.three_parts op (plane_at a.now i) (plane_at b.now i) (plane_at c.now i) }
{
    match op {
        Op::Clamp => three_planes::<Clamped>(a, b, c, out),
        Op::Mix => three_planes::<Mixed>(a, b, c, out),
        _ => copy(a, out),
    }
}

/// Whether two numbers stand in the order of a comparison, at each place.
pub fn order_rows(op: Op, a: &Plane, b: &Plane, out: &mut [Raw])
    requires a { IsPlane (length out.old) a.now }
    requires b { IsPlane (length out.old) b.now }
    ensures long { length out.new ≡ length out.old }
    ensures each { (i : ℕ) → i < length out.old → get_or out.new i (pos 0) ≡ truth (formulas.order op (plane_at a.now i) (plane_at b.now i)) }
{
    match op {
        Op::Less => two_planes::<Less>(a, b, out),
        Op::LessEqual => two_planes::<LessEqual>(a, b, out),
        Op::Greater => two_planes::<Greater>(a, b, out),
        Op::GreaterEqual => two_planes::<GreaterEqual>(a, b, out),
        _ => fill(Raw::zero(), out),
    }
}

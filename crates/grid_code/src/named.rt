// The table of the registers that have a name.
ghost use Rattle.std.specs.Prelude.{◌≡◌};
ghost use Rattle.grid_code.specs.Names.{reg, name_at};

use crate::code::Register;
use builtins::Shape;
use sl_ast::Predefined;

/// The point.
pub const P: Register = Register::Varying(Shape::Triple, 0);
/// The shading normal.
pub const N: Register = Register::Varying(Shape::Triple, 1);
/// The geometric normal.
pub const NG: Register = Register::Varying(Shape::Triple, 2);
/// The direction from the eye to the point.
pub const I: Register = Register::Varying(Shape::Triple, 3);
/// The place of the eye.
pub const E: Register = Register::Uniform(Shape::Triple, 4);
/// The first parameter of the surface.
pub const U: Register = Register::Varying(Shape::Number, 5);
/// The second parameter of the surface.
pub const V: Register = Register::Varying(Shape::Number, 6);
/// The step of u between neighbours.
pub const DU: Register = Register::Uniform(Shape::Number, 7);
/// The step of v between neighbours.
pub const DV: Register = Register::Uniform(Shape::Number, 8);
/// The first texture coordinate.
pub const S: Register = Register::Varying(Shape::Number, 9);
/// The second texture coordinate.
pub const T: Register = Register::Varying(Shape::Number, 10);
/// The colour of the surface.
pub const CS: Register = Register::Varying(Shape::Triple, 11);
/// The opacity of the surface.
pub const OS: Register = Register::Varying(Shape::Triple, 12);
/// The derivative of the point along u.
pub const DPDU: Register = Register::Varying(Shape::Triple, 13);
/// The derivative of the point along v.
pub const DPDV: Register = Register::Varying(Shape::Triple, 14);
/// The direction to a light, or from it.
pub const L: Register = Register::Varying(Shape::Triple, 15);
/// The colour of a light.
pub const CL: Register = Register::Varying(Shape::Triple, 16);
/// The colour that a shader gives.
pub const CI: Register = Register::Varying(Shape::Triple, 17);
/// The opacity that a shader gives.
pub const OI: Register = Register::Varying(Shape::Triple, 18);
/// The point that a light is asked for.
pub const PS: Register = Register::Varying(Shape::Triple, 19);
/// The number pi.
pub const PI: Register = Register::Uniform(Shape::Number, 20);
/// Whether a light is lit.
pub const LIT: Register = Register::Varying(Shape::Number, 21);
/// The number of the first register of a shader's frame, behind all of these.
pub const FIRST_FREE: u32 = 22;

/// The register of a class and a shape that has that number.
pub fn register(uniform: bool, shape: Shape, number: u32) -> Register
    ensures { result ≡ reg uniform shape number }
{
    if uniform {
        Register::Uniform(shape, number)
    } else {
        Register::Varying(shape, number)
    }
}

/// The register of a predefined variable.
pub fn register_of(name: Predefined) -> Register
    ensures { result ≡ name_at name }
{
    match name {
        Predefined::P => P,
        Predefined::N => N,
        Predefined::Ng => NG,
        Predefined::I => I,
        Predefined::E => E,
        Predefined::U => U,
        Predefined::V => V,
        Predefined::Du => DU,
        Predefined::Dv => DV,
        Predefined::S => S,
        Predefined::T => T,
        Predefined::Cs => CS,
        Predefined::Os => OS,
        Predefined::DPdu => DPDU,
        Predefined::DPdv => DPDV,
        Predefined::L => L,
        Predefined::Cl => CL,
        Predefined::Ci => CI,
        Predefined::Oi => OI,
        Predefined::Ps => PS,
        Predefined::Pi => PI,
    }
}

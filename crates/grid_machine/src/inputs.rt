// What a run is given.
ghost use Rattle.std.specs.Prelude.{◌≡◌, ℕ, ◌<◌, List};
ghost use Rattle.grid_code.specs.declared.shader_code.Code.{Code as AnyCode};
ghost use Rattle.sl_ast.specs.declared.typed.Value.{Value as AnyValue};
ghost use Rattle.transforms.specs.declared.spaces.Spaces.{Spaces as AnySpaces};

use grid_code::Code;
use sl_ast::Value;
use transforms::Spaces;

/// The grid that code runs on, and the values of its parameters and of the variables of its kind.
///
/// `uniforms` are the uniform parameters in order and then, for a surface or a displacement, du and dv. `varyings` are rows of raws, each of
/// the least multiple of eight elements that holds the points, three for a triple: those of the varying parameters in order, then those of
/// the varying variables that the kind is given, first those that it reads alone and then those that it writes. L and Cl, and variables
/// that start as another one, are not among them. `look_ups` has for each look-up of the code, in the order of their nodes' numbers, the number
/// of the texture that it names, where it names one.
#[derive(Clone, Copy)]
pub struct Inputs<'a> {
    pub columns: usize,
    pub rows: usize,
    pub uniforms: &'a [Value],
    pub varyings: &'a [i64],
    pub spaces: &'a Spaces,
    pub look_ups: &'a [Option<u32>],
}

/// The lights of a surface: their codes, and the values of all parameters of each in order.
pub trait Lights {
    ghost many: { Self → ℕ };

    ghost codes: { Self → ℕ → AnyCode };

    ghost params: { Self → ℕ → List AnyValue };

    ghost places: { Self → ℕ → AnySpaces };

    /// How many there are.
    fn count(&self) -> usize
        ensures { result ≡ many self.now };

    /// The code of a light.
    fn code(&self, n: usize) -> &Code
        requires { n < many self.now }
        ensures { result.now ≡ codes self.now n };

    /// The values of a light's parameters.
    fn values(&self, n: usize) -> &[Value]
        requires { n < many self.now }
        ensures { result.now ≡ params self.now n };

    /// The spaces of a light's shader.
    fn spaces(&self, n: usize) -> &Spaces
        requires { n < many self.now }
        ensures { result.now ≡ places self.now n };
}

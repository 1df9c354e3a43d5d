// Where something stands.
ghost use Rattle.std.specs.Prelude.{◌≡◌};
ghost use Rattle.sl_ast.specs.Settled as spec;
ghost use Rattle.uniform_varying.specs.Gives.{spot_of};

use sl_ast::LightStmt;

/// Where something stands: in uniform control, in a loop, in an `illuminance`.
#[derive(Clone, Copy)]
pub struct Spot {
    pub uniform: bool,
    pub looped: bool,
    pub inside: bool,
}

impl Spot {
    // The spot of a shader's statements.
    pub fn outermost() -> Spot
        ensures { spot_of result ≡ spec.outermost }
    {
        Spot {
            uniform: true,
            looped: false,
            inside: false,
        }
    }

    // The spot of what a branch in that control holds.
    pub fn in_control(self, uniform: bool) -> Spot
        ensures { spot_of result ≡ spec.in_control uniform (spot_of self) }
    {
        Spot {
            uniform,
            looped: self.looped,
            inside: self.inside,
        }
    }

    // The spot of what a loop in that control holds.
    pub fn in_loop(self, uniform: bool) -> Spot
        ensures { spot_of result ≡ spec.in_loop uniform (spot_of self) }
    {
        Spot {
            uniform,
            looped: true,
            inside: self.inside,
        }
    }

    // The spot of the body of a statement over lights.
    pub fn in_lights(self, word: LightStmt) -> Spot
        ensures { spot_of result ≡ spec.in_lights word (spot_of self) }
    {
        match word {
            LightStmt::Illuminance => Spot {
                uniform: false,
                looped: self.looped,
                inside: true,
            },
            LightStmt::Illuminate | LightStmt::Solar => self.in_control(false),
        }
    }
}

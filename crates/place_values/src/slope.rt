// The quotient of a difference of two values by a step.
ghost use Rattle.std.specs.Prelude.{◌≡◌};
ghost use Rattle.fixed_math.specs.Fixed.{div};
ghost use Rattle.builtins.specs.Differences as spec;
ghost use Rattle.builtins.specs.Values.{by_part};
ghost use Rattle.place_values.specs.Cells.{value_of};

use crate::cell::{Cell, Setting};
use fixed_math::{Num, Vec3};
use sl_ast::ValueOperation;

impl Setting<'_> {
    fn divided(&self, v: &Cell, step: Num) -> Cell
        ensures { value_of self.now.texts.now result ≡ by_part (λ d. div d step) (value_of self.now.texts.now v.now) }
    {
        match v {
            Cell::Number(x) => Cell::Number(x.div(step)),
            Cell::Triple(_) | Cell::Word(_) => {
                let t = self.triple(v);
                Cell::Triple(Vec3 {
                    x: t.x.div(step),
                    y: t.y.div(step),
                    z: t.z.div(step),
                })
            }
        }
    }

    /// The quotient of a difference of values by a step.
    pub fn slope(&self, step: Num, v: &Cell, w: &Cell) -> Cell
        ensures { value_of self.now.texts.now result ≡ spec.slope step (value_of self.now.texts.now v.now) (value_of self.now.texts.now w.now) }
    {
        self.divided(&self.by_parts(ValueOperation::Subtract, v, w), step)
    }
}

// Operations that are formulas of numbers, on cells: as they are on numbers, and part by part where a triple stands.
ghost use Rattle.std.specs.Prelude.{◌≡◌};
ghost use Rattle.builtins.specs.Formulas as formulas;
ghost use Rattle.builtins.specs.Values as spec;
ghost use Rattle.place_values.specs.Cells.{value_of};

use crate::cell::{Cell, Setting};
use builtins::{each_three, each_two, part, parts, three_parts};
use fixed_math::Vec3;
use sl_ast::ValueOperation as Op;

impl Setting<'_> {
    pub(crate) fn by_part(&self, op: Op, v: &Cell) -> Cell
        ensures { value_of self.now.texts.now result ≡ spec.by_part (formulas.part op) (value_of self.now.texts.now v.now) }
    {
        match v {
            Cell::Number(x) => Cell::Number(part(op, *x)),
            Cell::Triple(_) | Cell::Word(_) => {
                let t = self.triple(v);
                Cell::Triple(Vec3 {
                    x: part(op, t.x),
                    y: part(op, t.y),
                    z: part(op, t.z),
                })
            }
        }
    }

    pub(crate) fn by_parts(&self, op: Op, v: &Cell, w: &Cell) -> Cell
        ensures { value_of self.now.texts.now result ≡ spec.by_parts (formulas.parts op) (value_of self.now.texts.now v.now) (value_of self.now.texts.now w.now) }
    {
        match (v, w) {
            (Cell::Number(x), Cell::Number(y)) => Cell::Number(parts(op, *x, *y)),
            _ => Cell::Triple(each_two(op, self.triple(v), self.triple(w))),
        }
    }

    pub(crate) fn by_three_parts(&self, op: Op, u: &Cell, v: &Cell, w: &Cell) -> Cell
        ensures { let value = value_of self.now.texts.now in value result ≡ spec.by_three_parts (formulas.three_parts op) (value u.now) (value v.now) (value w.now) }
    {
        match (u, v, w) {
            (Cell::Number(x), Cell::Number(y), Cell::Number(z)) => Cell::Number(three_parts(
                op, *x, *y, *z,
            )),
            _ => Cell::Triple(each_three(op, self.triple(u), self.triple(v), self.triple(w))),
        }
    }
}

// The table of operations on the values of one place.
ghost use Rattle.std.specs.Prelude.{◌≡◌};
ghost use Rattle.builtins.specs.Table as spec;
ghost use Rattle.place_values.specs.Cells.{value_of};

use crate::cell::{Cell, Setting};
use builtins::{
    comp, cross, depth, distance, dot, faceforward, length, noise, normalize, number_formula,
    order, reflect, smoothstep, step,
};
use fixed_math::{Num, Vec3};
use sl_ast::{SlType, ValueOperation as Op};
use transforms::Spaces;

impl Setting<'_> {
    // Noise of a triple, or of a number: a place on the first axis.
    fn noise_of(&self, v: &Cell) -> Cell
        ensures { value_of self.now.texts.now result ≡ spec.noise_of (value_of self.now.texts.now v.now) }
    {
        match v {
            Cell::Number(x) => Cell::Number(noise(Vec3 {
                x: *x,
                y: Num::sat(0),
                z: Num::sat(0),
            })),
            Cell::Triple(_) | Cell::Word(_) => Cell::Number(noise(self.triple(v))),
        }
    }

    /// An operation on one value.
    #[tactic(auto, unfolding(builtins::specs::Table::of_one))]
    pub fn of_one(&self, op: Op, v: &Cell) -> Cell
        ensures { value_of self.now.texts.now result ≡ spec.of_one op self.now.spaces.now (value_of self.now.texts.now v.now) }
    {
        match op {
            Op::Negate | Op::Abs | Op::Sign => self.by_part(op, v),
            Op::Floor | Op::Ceil | Op::Round => self.by_part(op, v),
            Op::Not => self.truth(!self.is_true(v)),
            Op::Convert(kind, from) => self.placed(kind, from, v),
            Op::Sin | Op::Cos | Op::Tan => Cell::Number(number_formula(op, self.number(v))),
            Op::Sqrt | Op::InverseSqrt => Cell::Number(number_formula(op, self.number(v))),
            Op::Exp | Op::Log => Cell::Number(number_formula(op, self.number(v))),
            Op::Radians | Op::Degrees => Cell::Number(number_formula(op, self.number(v))),
            Op::XComp => Cell::Number(self.triple(v).x),
            Op::YComp => Cell::Number(self.triple(v).y),
            Op::ZComp => Cell::Number(self.triple(v).z),
            Op::Length => Cell::Number(length(self.triple(v))),
            Op::Normalize => Cell::Triple(normalize(self.triple(v))),
            Op::Transform(from, into) => self.through(SlType::Point, from, into, v),
            Op::VTransform(from, into) => self.through(SlType::Vector, from, into, v),
            Op::NTransform(from, into) => self.through(SlType::Normal, from, into, v),
            Op::Depth => Cell::Number(depth(self.triple(v), self.spaces.near, self.spaces.far)),
            Op::Noise => self.noise_of(v),
            _ => *v,
        }
    }

    /// An operation on two values.
    #[tactic(auto, unfolding(builtins::specs::Table::of_two))]
    pub fn of_two(&self, op: Op, v: &Cell, w: &Cell) -> Cell
        ensures { value_of self.now.texts.now result ≡ spec.of_two op (value_of self.now.texts.now v.now) (value_of self.now.texts.now w.now) }
    {
        match op {
            Op::Or => self.truth(self.is_true(v) || self.is_true(w)),
            Op::And => self.truth(self.is_true(v) && self.is_true(w)),
            Op::Equal => self.truth(self.is_same(v, w)),
            Op::NotEqual => self.truth(!self.is_same(v, w)),
            Op::Less | Op::LessEqual => self.truth(order(op, self.number(v), self.number(w))),
            Op::Greater | Op::GreaterEqual => self.truth(order(op, self.number(v), self.number(w))),
            Op::Add | Op::Subtract | Op::Multiply | Op::Divide => self.by_parts(op, v, w),
            Op::Min | Op::Max | Op::Mod => self.by_parts(op, v, w),
            Op::Cross => Cell::Triple(cross(self.triple(v), self.triple(w))),
            Op::Reflect => Cell::Triple(reflect(self.triple(v), self.triple(w))),
            Op::Dot => Cell::Number(dot(self.triple(v), self.triple(w))),
            Op::Distance => Cell::Number(distance(self.triple(v), self.triple(w))),
            Op::Pow => Cell::Number(self.number(v).pow(self.number(w))),
            Op::Step => Cell::Number(step(self.number(v), self.number(w))),
            Op::Comp => Cell::Number(comp(self.triple(v), self.number(w))),
            Op::Noise => Cell::Number(noise(Vec3 {
                x: self.number(v),
                y: self.number(w),
                z: Num::sat(0),
            })),
            _ => *v,
        }
    }

    /// An operation on three values.
    #[tactic(auto, unfolding(builtins::specs::Table::of_three))]
    pub fn of_three(&self, op: Op, u: &Cell, v: &Cell, w: &Cell) -> Cell
        ensures { value_of self.now.texts.now result ≡ spec.of_three op self.now.spaces.now (value_of self.now.texts.now u.now) (value_of self.now.texts.now v.now) (value_of self.now.texts.now w.now) }
    {
        match op {
            Op::Select => self.chosen(self.is_true(u), v, w),
            Op::Triple(kind, from) => {
                let parts = Vec3 {
                    x: self.number(u),
                    y: self.number(v),
                    z: self.number(w),
                };
                self.composed(kind, from, parts)
            }
            Op::Min | Op::Max => self.by_parts(op, &self.by_parts(op, u, v), w),
            Op::Clamp | Op::Mix => self.by_three_parts(op, u, v, w),
            Op::SmoothStep => Cell::Number(smoothstep(
                self.number(u),
                self.number(v),
                self.number(w),
            )),
            Op::FaceForward => Cell::Triple(faceforward(
                self.triple(u),
                self.triple(v),
                self.triple(w),
            )),
            _ => *u,
        }
    }
}

// How primitives look beside their shaders.
ghost use Rattle.std.specs.Prelude.{◌≡◌, pos, Some, None, codes};
ghost use Rattle.fixed_math.specs.Whole.{clamp};
ghost use Rattle.rib_reader.specs.declared.req.Req.TheVariants as reqs;
ghost use Rattle.rib_reader.specs.Holding.{last_named};
ghost use Rattle.scene_parts.specs.Looks.{LookValues, IsLook, most_bound, first_look, colour_or, with_attribute, number_of, look_after};

use crate::choices::first_number;
use fixed_math::{Decimal, Num, Vec3};
use rib_reader::{Req, Request, last_named};
use scene::Param;
use std::marker::Model;

/// How a primitive looks beside its shaders: colour and opacity, the shading rate in square pixels, its sides, whether colour and
/// opacity vary over a micropolygon, and how far displacement may move it in camera space, raw 0 to 2^29. Contracts see it as a
/// record.
#[derive(Clone, Copy)]
pub struct Look {
    pub cs: Vec3,
    pub os: Vec3,
    pub rate: Num,
    pub one_sided: bool,
    pub flip: bool,
    pub smooth: bool,
    pub bound: Num,
}

impl Model for Look {
    ghost Value = { LookValues };

    ghost view = { λ l. record { cs = l.cs; os = l.os; rate = l.rate; one_sided = l.one_sided; flip = l.flip; smooth = l.smooth; bound = l.bound } };

    ghost invariant = { λ l. IsLook (record { cs = l.cs; os = l.os; rate = l.rate; one_sided = l.one_sided; flip = l.flip; smooth = l.smooth; bound = l.bound }) };

    ghost inverse = { λ l. record { cs = l.cs; os = l.os; rate = l.rate; one_sided = l.one_sided; flip = l.flip; smooth = l.smooth; bound = l.bound } };
}

// A colour of three numbers.
fn colour(numbers: &[Decimal], or: Vec3) -> Vec3
    ensures { result ≡ colour_or (Some numbers.now) or }
{
    match numbers {
        [r, g, b] => Vec3 {
            x: r.num(),
            y: g.num(),
            z: b.num(),
        },
        _ => or,
    }
}

// A number put into raw 0 to 2^29.
fn bounded(number: Num) -> Num
    ensures { result ≡ clamp (pos 0) most_bound number }
{
    Num::sat(number.raw().clamp(0, 536870912) as i128)
}

// A colour of three equal parts.
fn grey(part: Num) -> Vec3
    ensures { result ≡ record { x = part; y = part; z = part } }
{
    Vec3 {
        x: part,
        y: part,
        z: part,
    }
}

impl Look {
    /// White and opaque, seen from both sides, at one square pixel, of one colour and opacity over a micropolygon.
    pub fn first() -> Look
        ensures { result ≡ first_look }
    {
        let one = Num::sat(65536);
        Look {
            cs: grey(one),
            os: grey(one),
            rate: one,
            one_sided: false,
            flip: false,
            smooth: false,
            bound: Num::sat(0),
        }
    }

    // The displacement bound of an attribute of that name.
    fn with_attribute(self, request: &Request) -> Look
        requires { request.now.name ≡ reqs.Attribute }
        ensures { result ≡ with_attribute request.now.args request.now.params self }
    {
        if request.word(0).as_str() != "displacementbound" {
            return self;
        }
        match number(request.params.as_slice()) {
            Some(number) => Look {
                bound: bounded(number),
                ..self
            },
            None => self,
        }
    }

    /// The look behind a request for a part of it.
    pub fn after(self, request: &Request) -> Look
        ensures { result ≡ look_after request.now.name request.now.args request.now.params self }
    {
        match request.name {
            Req::Color => Look {
                cs: colour(request.array(0, 3), self.cs),
                ..self
            },
            Req::Opacity => Look {
                os: colour(request.array(0, 3), self.os),
                ..self
            },
            Req::ShadingRate => Look {
                rate: request.number(0),
                ..self
            },
            Req::ShadingInterpolation => Look {
                smooth: request.word(0).as_str() == "smooth",
                ..self
            },
            Req::Sides => Look {
                one_sided: request.whole(0) == 1,
                ..self
            },
            Req::Orientation => Look {
                flip: request.word(0).as_str() == "inside",
                ..self
            },
            Req::ReverseOrientation => Look {
                flip: !self.flip,
                ..self
            },
            Req::Attribute => self.with_attribute(request),
            _ => self,
        }
    }
}

// The number of the last bound.
fn number(params: &[Param]) -> Option<Num>
    ensures { result ≡ number_of (last_named (codes "sphere") params.now) }
{
    first_number(&last_named(params, "sphere")?.values)
}

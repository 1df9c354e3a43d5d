// The predefined variables by name, and names of spaces.
ghost use Rattle.std.specs.Prelude.{◌≡◌, map};
ghost use Rattle.sl_ast.specs.Names.{space_named as space_spec};
ghost use Rattle.sl_expressions.specs.Names.{plain};
ghost use Rattle.sl_expressions.specs.Predefined as spec;
ghost use Rattle.sl_expressions.specs.Views.{spot_of};

use crate::entry::Entry;
use crate::names::is;
use crate::places::Spot;
use fixed_math::Text;
use sl_ast::{Predefined, SlKind, SpaceName};

pub fn predefined_names() -> &'static [Entry<Predefined>]
    ensures { map plain result.now ≡ spec.predefined_names }
{
    &[
        Entry {
            name: "P",
            value: Predefined::P,
        },
        Entry {
            name: "N",
            value: Predefined::N,
        },
        Entry {
            name: "Ng",
            value: Predefined::Ng,
        },
        Entry {
            name: "I",
            value: Predefined::I,
        },
        Entry {
            name: "E",
            value: Predefined::E,
        },
        Entry {
            name: "u",
            value: Predefined::U,
        },
        Entry {
            name: "v",
            value: Predefined::V,
        },
        Entry {
            name: "du",
            value: Predefined::Du,
        },
        Entry {
            name: "dv",
            value: Predefined::Dv,
        },
        Entry {
            name: "s",
            value: Predefined::S,
        },
        Entry {
            name: "t",
            value: Predefined::T,
        },
        Entry {
            name: "Cs",
            value: Predefined::Cs,
        },
        Entry {
            name: "Os",
            value: Predefined::Os,
        },
        Entry {
            name: "dPdu",
            value: Predefined::DPdu,
        },
        Entry {
            name: "dPdv",
            value: Predefined::DPdv,
        },
        Entry {
            name: "L",
            value: Predefined::L,
        },
        Entry {
            name: "Cl",
            value: Predefined::Cl,
        },
        Entry {
            name: "Ci",
            value: Predefined::Ci,
        },
        Entry {
            name: "Oi",
            value: Predefined::Oi,
        },
        Entry {
            name: "Ps",
            value: Predefined::Ps,
        },
        Entry {
            name: "PI",
            value: Predefined::Pi,
        },
    ]
}

// The space of that name.
pub fn space_named(kind: SlKind, by_default: bool, name: &Text) -> Option<SpaceName>
    ensures { result ≡ space_spec kind by_default name.now }
{
    if is(name, "current") || is(name, "camera") {
        return Some(SpaceName::Current);
    }
    if is(name, "shader") {
        return Some(SpaceName::Shader);
    }
    if by_default {
        return None;
    }
    if is(name, "world") {
        return Some(SpaceName::World);
    }
    if !is(name, "object") {
        return None;
    }
    match kind {
        SlKind::Light => Some(SpaceName::Shader),
        _ => Some(SpaceName::Object),
    }
}

// Whether a variable is read at that place.
pub fn is_read(g: &Spot, x: Predefined) -> bool
    ensures { result ≡ spec.is_read (spot_of g.now) x }
{
    matches!(x, Predefined::Pi) || (!g.bare && g.kind.reads(g.lit, x))
}

// Whether a variable is one of this kind of shader, wherever it is read.
pub fn is_own(g: &Spot, x: Predefined) -> bool
    ensures { result ≡ spec.is_own (spot_of g.now) x }
{
    matches!(x, Predefined::Pi) || (!g.bare && g.kind.reads(true, x))
}

pub fn is_written(g: &Spot, x: Predefined) -> bool
    ensures { result ≡ spec.is_written (spot_of g.now) x }
{
    !g.bare && g.kind.writes(x)
}

// The parameters of a shader.
ghost use Rattle.std.specs.Prelude.{◌≡◌, length, map};
ghost use Rattle.sl_ast.specs.TypedView.{local_of};
ghost use Rattle.grid_rows.specs.Parameters.{ParameterValues};

use grid_code::Slot;
use sl_ast::{ParamDecl, Value};
use std::marker::Model;

/// The parameters of a shader, one behind another: as they are declared, where its code has them, and what they are bound to.
#[derive(Drop)]
pub struct Parameters<'s> {
    pub declared: &'s [ParamDecl],
    pub slots: &'s [Slot],
    pub values: &'s [Value],
}

impl<'s> Model for Parameters<'s> {
    ghost Value = { ParameterValues };

    ghost view = { λ p. record { locals = map local_of p.declared.now; slots = p.slots.now; values = p.values.now } };

    ghost invariant = { λ p. (length p.declared.now ≡ length p.slots.now) × (length p.values.now ≡ length p.slots.now) };
}

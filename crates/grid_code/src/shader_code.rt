// The code of a shader.
ghost use Rattle.std.specs.Prelude.{◌≡◌, ◌≤◌, true, false};
ghost use Rattle.std.specs.List.{list_all};
ghost use Rattle.grid_code.specs.Uses.{has, rows_in, given_registers, within, looks_within, is_one_of};
ghost use Rattle.grid_code.specs.Valid.{is_placed, nesting, is_ambient};
ghost use Rattle.grid_code.specs.View.{block_of};

use crate::code::Node;
use crate::look_up_set::LookUpSet;
use crate::register_set::RegisterSet;
use crate::slot::Slot;
use fixed_math::List;
use sl_ast::SlKind;

/// The code of a shader: its kind, its parameters in order, its nodes, and the registers that it has.
///
/// Registers 0 to 21 are those of the predefined variables (and of whether a light is lit); parameter k has register 22 + k of its class and
/// of its type's shape. The row of a varying register is its place among those of its shape in `varying`; a triple counts three rows, and
/// there are at most 65,536. All registers that the kind of shader begins with and that the nodes name are there. Registers hold values of
/// their shape alone. Blocks lie at most 1,024 deep in one another. Break and Continue stand in a loop, what is over lights in the kinds of
/// shaders that have it, differences and look-ups in uniform control of a surface or a displacement. `ambient` says that it is a light with
/// neither `illuminate` nor `solar`. `look_ups` has the numbers of the nodes of all look-ups.
#[derive(Drop)]
pub struct Code {
    pub kind: SlKind,
    pub params: List<Slot>,
    pub nodes: List<Node>,
    pub ambient: bool,
    pub varying: RegisterSet,
    pub uniform: RegisterSet,
    pub look_ups: LookUpSet,
    pub ghost given: { list_all (has varying uniform) (given_registers kind params) ≡ true },
    pub ghost named: { within (has varying uniform) (block_of nodes) ≡ true },
    pub ghost placed: { is_placed kind false true (block_of nodes) ≡ true },
    pub ghost shallow: { nesting (block_of nodes) ≤ 1024 },
    pub ghost few: { rows_in varying ≤ 65536 },
    pub ghost lit: { ambient ≡ is_ambient kind (block_of nodes) },
    pub ghost looked: { looks_within (is_one_of look_ups.nodes) (block_of nodes) ≡ true },
}

impl Code {
    /// The shader's kind.
    pub fn kind(&self) -> SlKind
        ensures { result ≡ self.now.kind }
    {
        self.kind
    }

    /// Whether it is a light with neither `illuminate` nor `solar`.
    pub fn ambient(&self) -> bool
        ensures { result ≡ is_ambient self.now.kind (block_of self.now.nodes) }
    {
        self.ambient
    }

    /// How many rows of numbers its varying registers take.
    pub fn rows(&self) -> u32
        ensures value { result ≡ rows_in self.now.varying }
        ensures few { result ≤ 65536 }
    {
        self.varying.rows()
    }
}

// A light on a grid, and the one machine that the code of all lights runs in.
ghost use Rattle.grid_machine.specs.Fits.{Fits};

use crate::given::parameters;
use bumpalo::Bump;
use fixed_math::NoMemory;
use grid_code::{Code, Register};
use grid_registers::{Frame, Room};
use sl_ast::Value;
use transforms::Spaces;

/// A light: its code, the registers of its parameters in order with a value for each, and the frame of the machine that runs the code.
#[derive(Clone, Copy)]
pub struct Lamp<'a> {
    pub code: &'a Code,
    pub registers: &'a [Register],
    pub values: &'a [Value],
    pub frame: &'a Frame<'a>,
    pub ghost fits: { Fits frame.now code.now registers.now values.now },
}

impl<'a> Lamp<'a> {
    ghost use Rattle.std.specs.Prelude.{◌≡◌, IfOk};
    ghost use Rattle.grid_machine.specs.Asked.{IsLight, asked};
    ghost use Rattle.grid_machine.specs.Lamps.{IsPlaced, asked_of};
    ghost use Rattle.grid_registers.specs.Rooms.{HasRoom};
    ghost use Rattle.grid_machine.specs.State.{lines_of};

    /// A light on a grid, with its spaces and a value for each parameter, in a machine with some room; or want of memory.
    pub fn new(
        arena: &'a Bump,
        grid: &Frame<'a>,
        code: &'a Code,
        values: &'a [Value],
        spaces: &'a Spaces,
        room: Room,
    ) -> Result<Lamp<'a>, NoMemory>
        requires light { IsLight code.now values.now }
        requires room { HasRoom code.now.varying code.now.uniform grid.now.places room }
        ensures level { IfOk result (λ lamp. IsPlaced grid.now.places room lamp) }
        ensures asked { IfOk result (λ lamp. asked_of lamp ≡ asked (lines_of grid.now) grid.now.places spaces.now code.now values.now) }
    {
        let registers = parameters(arena, code.params.as_slice())?;
        let frame = grid.for_code(arena, code, values, spaces, room)?;
        Ok(Lamp {
            code,
            registers,
            values,
            frame,
        })
    }
}

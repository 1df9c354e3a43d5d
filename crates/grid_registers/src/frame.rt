// What a run of code does not change.
ghost use Rattle.std.specs.Prelude.{◌≡◌, ◌*◌, ◌≤◌, IfOk};
ghost use Rattle.grid_code.specs.Uses.{rows_in};
ghost use Rattle.grid_registers.specs.Rooms.{HasRoom};

use crate::room::Room;
use bumpalo::Bump;
use bumpalo::collections::into_bump_slice;
use fixed_math::{NoMemory, Num};
use grid_code::{Code, LookUpSet, RegisterSet, gather};
use place_values::Setting;
use sl_ast::Value;
use std::slice::from_ref;
use transforms::Spaces;

/// The steps of u and v between neighbours of a grid.
#[derive(Clone, Copy)]
pub struct Steps {
    pub du: Num,
    pub dv: Num,
}

/// The lines of a grid with the steps of its parameters, what values stand in, the registers of the code, its look-ups with the number of the
/// texture that each names, where it names one, and the room that a machine has for the registers' values: that of this code, or the greater
/// one of a machine that other code uses too.
#[derive(Clone, Copy)]
pub struct Frame<'a> {
    pub columns: usize,
    pub rows: usize,
    pub places: usize,
    pub steps: Steps,
    pub setting: Setting<'a>,
    pub varying: &'a RegisterSet,
    pub uniform: &'a RegisterSet,
    pub look_ups: &'a LookUpSet,
    pub entries: &'a [Option<u32>],
    pub room: Room,
    pub ghost shape: { places ≡ columns * rows },
    pub ghost some: { 4 ≤ places },
    pub ghost wide: { 2 ≤ columns },
    pub ghost narrow: { columns ≤ 17 },
    pub ghost tall: { 2 ≤ rows },
    pub ghost low: { rows ≤ 17 },
    pub ghost few: { places ≤ 289 },
    pub ghost small: { rows_in varying.now ≤ 65536 },
    pub ghost roomy: { HasRoom varying.now uniform.now places room },
}

impl<'a> Frame<'a> {
    ghost use Rattle.grid_registers.specs.Frames.{OfCode};
    ghost use Rattle.grid_registers.specs.Frames.{lines_of};

    /// The same grid for other code without look-ups, with its values, its spaces and some room for it, or want of memory.
    pub fn for_code(
        &self,
        arena: &'a Bump,
        code: &'a Code,
        values: &'a [Value],
        spaces: &'a Spaces,
        room: Room,
    ) -> Result<&'a Frame<'a>, NoMemory>
        requires { HasRoom code.now.varying code.now.uniform self.now.places room }
        ensures room { IfOk result (λ f. f.now.room ≡ room) }
        ensures code { IfOk result (λ f. OfCode f.now code.now values.now) }
        ensures lines { IfOk result (λ f. lines_of f.now ≡ lines_of self.now) }
        ensures places { IfOk result (λ f. f.now.places ≡ self.now.places) }
        ensures spaces { IfOk result (λ f. f.now.setting.spaces.now ≡ spaces.now) }
    {
        let texts = into_bump_slice(gather(arena, values, code)?);
        let frame = Frame {
            columns: self.columns,
            rows: self.rows,
            places: self.places,
            steps: self.steps,
            setting: Setting { texts, spaces },
            varying: &code.varying,
            uniform: &code.uniform,
            look_ups: &code.look_ups,
            entries: self.entries,
            room,
        };
        frame.keep(arena)
    }

    /// The same frame for as long as an arena lives, or want of memory.
    pub fn keep(&self, arena: &'a Bump) -> Result<&'a Frame<'a>, NoMemory>
        ensures { IfOk result (λ kept. kept.now ≡ self.now) }
    {
        let kept: &[Frame<'a>] = arena.try_alloc_slice_copy(from_ref(self))?;
        Ok(&kept[0])
    }
}

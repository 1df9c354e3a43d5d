// The scene of a list of requests.
ghost use Rattle.std.specs.Prelude.{◌≡◌, map, IfOk};
ghost use Rattle.rib_reader.specs.Reading.{plain};
ghost use Rattle.scene_state.specs.State.{first_state};
ghost use Rattle.scene_state.specs.MotionBlocks.{CanStand, are_closed, steps_of};
ghost use Rattle.scene_state.specs.Standing.{step_of};
ghost use Rattle.scene_state.specs.Steps.{state_from, last_line, taken};
ghost use Rattle.scene_state.specs.Unnamed.{LastAreAt};
ghost use Rattle.scene_state.specs.FirstUse.{InFirstUse};
ghost use Rattle.scene_state.specs.Answers.{GivesState, GivesScene, Steps};

use crate::fault::{StateFault, StepFault};
use crate::motion_blocks::{Place, Step};
use crate::state::State;
use fixed_math::List;
use moving_maps::When;
use rib_reader::{Req, Request};
use scene::Scene;
use scene_parts::StateCode;
use std::alloc::Global;
use std::mem;

// The line of the last request, 1 where there is none.
fn last_line(requests: &[Request]) -> u32
    ensures { result ≡ last_line (map plain requests.now) }
{
    match requests.last() {
        Some(request) => request.line,
        None => 1,
    }
}

impl State {
    // Changes the state by a step.
    fn take(&mut self, alloc: Global, step: Step<'_>) -> Result<(), StepFault>
        requires lights { LastAreAt self.old }
        requires stands { CanStand (step_of step) }
        ensures { Steps result (taken (step_of step.entry) self.old) self.new }
    {
        match step {
            Step::Alone(request) => self.step(alloc, request),
            Step::Begins(_) => self.begin_motion(),
            Step::First { from, to, request } => match request.name {
                Req::Patch | Req::PatchMesh => self.look_at_first(alloc, from, to, request),
                _ => self.turn(When::First { from, to }, request),
            },
            Step::Both {
                from,
                to,
                first,
                last,
            } => match first.name {
                Req::Patch | Req::PatchMesh => self.place_both(alloc, from, to, first, last),
                _ => self.turn(When::Last { from, to }, last),
            },
            Step::Ends(_) => Ok(()),
            Step::Misplaced(_) => Err(StepFault::Refused(StateCode::N6)),
        }
    }

    // Goes through the requests, one after another. The answer is whether no motion block is open at the end.
    fn go_through(&mut self, alloc: Global, requests: &[Request]) -> Result<bool, StateFault>
        requires { self.old ≡ first_state }
        ensures state { GivesState result (state_from self.old (steps_of (map plain requests.now))) self.new }
        ensures closed { IfOk result (λ closed. closed ≡ are_closed (steps_of (map plain requests.now))) }
    {
        let mut place = Place::Outside;
        for request in requests {
            let (step, behind) = place.next(request);
            if let Err(stop) = self.take(alloc, step) {
                return Err(stop.at(request.line));
            }
            place = behind;
        }
        Ok(place.is_outside())
    }

    // The scene of these requests, which it takes out of the state.
    fn scene_of(&mut self, alloc: Global, requests: &[Request]) -> Result<Scene, StateFault>
        requires { self.old ≡ first_state }
        ensures gives { GivesScene result requests.now }
        ensures uses { IfOk result InFirstUse }
    {
        let closed = self.go_through(alloc, requests)?;
        if !closed || self.blocks.len() != 0 {
            return Err(StateFault::At {
                code: StateCode::N4,
                line: last_line(requests),
            });
        }
        Ok(Scene {
            frames: mem::replace(&mut self.frames, List(Vec::new(alloc))),
            uses: mem::replace(&mut self.shaders.uses, List(Vec::new(alloc))),
        })
    }
}

/// The scene of a list of requests: its frames with their options, cameras and primitives, and the shader requests that some
/// primitive has, each once, in the order of first use.
///
/// A fault comes exactly where the list has it first, request by request, with the line of the request's name: in one request
/// those of nesting (`N1` to `N7`) before those of geometry (`G1` to `G5`, `G4` before `G1` and `G2`) before the limits (`M1` to
/// `M7`). `N4`, for blocks that are open at the end, has the line of the last request. Else the answer is want of memory.
pub fn scene(alloc: Global, requests: &[Request]) -> Result<Scene, StateFault>
    ensures gives { GivesScene result requests.now }
    ensures uses { IfOk result InFirstUse }
{
    let mut state = State::first(alloc)?;
    state.scene_of(alloc, requests)
}

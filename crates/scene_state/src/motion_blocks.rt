// Motion blocks: which requests stand in them.
ghost use Rattle.std.specs.Prelude.{◌≡◌};
ghost use Rattle.rib_reader.specs.Reading.{plain};
ghost use Rattle.scene_state.specs.MotionBlocks.{are_pair, both_step, can_move, CanStand, end_step, first_step, outside_step, times_in};
ghost use Rattle.scene_state.specs.Standing.{is_outside, Outside, standing_behind, standing_of, step_at, step_of};
ghost use Rattle.rib_reader.specs.Rules.{numbers_at};
ghost use Rattle.rib_reader.specs.declared.req.Req.TheVariants as reqs;

use fixed_math::Num;
use rib_reader::{Req, Request};

/// Where a request stands: outside of motion blocks, or behind so much of one.
#[derive(Drop)]
pub(crate) enum Place<'a> {
    Outside,
    /// Behind `MotionBegin`.
    Begun {
        from: Num,
        to: Num,
    },
    /// Behind its first request.
    Half {
        from: Num,
        to: Num,
        first: &'a Request,
    },
    /// Behind both of its requests.
    Whole,
}

/// What a request is to the state.
#[derive(Drop)]
pub(crate) enum Step<'a> {
    /// One outside of motion blocks.
    Alone(&'a Request),
    /// The begin of a motion block.
    Begins(&'a Request),
    /// The first request of a motion block.
    First {
        from: Num,
        to: Num,
        request: &'a Request,
    },
    /// Both requests of a motion block, of which the first one was a step already.
    Both {
        from: Num,
        to: Num,
        first: &'a Request,
        last: &'a Request,
    },
    /// The end of a motion block.
    Ends(&'a Request),
    /// One that can't stand there.
    Misplaced(&'a Request),
}

// Whether a request can stand in a motion block.
fn can_move(name: Req) -> bool
    ensures { result ≡ can_move name }
{
    matches!(
        name,
        Req::Translate
            | Req::Rotate
            | Req::Scale
            | Req::ConcatTransform
            | Req::Transform
            | Req::Patch
            | Req::PatchMesh
    )
}

// Whether two requests have one name and can stand in a motion block.
fn are_pair(first: Req, last: Req) -> bool
    ensures { result ≡ are_pair first last }
{
    can_move(first) && first == last
}

// The times of a motion block.
fn times_of(request: &Request) -> (Num, Num)
    requires { request.now.name ≡ reqs.MotionBegin }
    ensures { times_in (numbers_at request.now.args 0) ≡ result }
{
    let times = request.array(0, 2);
    (times[0].num(), times[1].num())
}

// A request behind the begin of a motion block of these times.
fn first_step<'a>(from: Num, to: Num, request: &'a Request) -> Step<'a>
    ensures step { step_of result ≡ first_step (from, to) (plain request.now) }
    ensures stands { CanStand (step_of result) }
{
    if can_move(request.name) {
        Step::First { from, to, request }
    } else {
        Step::Misplaced(request)
    }
}

// A request behind the first one of a motion block of these times.
fn both_step<'a>(from: Num, to: Num, first: &'a Request, last: &'a Request) -> Step<'a>
    ensures step { step_of result ≡ both_step (from, to) (plain first.now) (plain last.now) }
    ensures stands { CanStand (step_of result) }
{
    if are_pair(first.name, last.name) {
        Step::Both {
            from,
            to,
            first,
            last,
        }
    } else {
        Step::Misplaced(last)
    }
}

// A request behind both of a motion block.
fn end_step<'a>(request: &'a Request) -> Step<'a>
    ensures step { step_of result ≡ end_step (plain request.now) }
    ensures stands { CanStand (step_of result) }
{
    match request.name {
        Req::MotionEnd => Step::Ends(request),
        _ => Step::Misplaced(request),
    }
}

// A request outside of motion blocks.
fn outside_step<'a>(request: &'a Request) -> Step<'a>
    ensures step { step_of result ≡ outside_step (plain request.now) }
    ensures stands { CanStand (step_of result) }
{
    match request.name {
        Req::MotionBegin => Step::Begins(request),
        Req::MotionEnd => Step::Misplaced(request),
        _ => Step::Alone(request),
    }
}

// The place behind a request outside of motion blocks.
fn place_behind<'a>(request: &'a Request) -> Place<'a>
    ensures { standing_of result ≡ standing_behind Outside (plain request.now) }
{
    match request.name {
        Req::MotionBegin => {
            let (from, to) = times_of(request);
            Place::Begun { from, to }
        }
        _ => Place::Outside,
    }
}

impl<'a> Place<'a> {
    /// What a request in this place is to the state, and the place behind it.
    pub(crate) fn next(self, request: &'a Request) -> (Step<'a>, Place<'a>)
        ensures step { step_of result.0 ≡ step_at (standing_of self.entry) (plain request.now) }
        ensures stands { CanStand (step_of result.0) }
        ensures place { standing_of result.1 ≡ standing_behind (standing_of self.entry) (plain request.now) }
    {
        match self {
            Place::Outside => (outside_step(request), place_behind(request)),
            Place::Begun { from, to } => (
                first_step(from, to, request),
                Place::Half {
                    from,
                    to,
                    first: request,
                },
            ),
            Place::Half { from, to, first } => {
                (both_step(from, to, first, request), Place::Whole)
            }
            Place::Whole => (end_step(request), Place::Outside),
        }
    }

    /// Whether it is outside of motion blocks.
    pub(crate) fn is_outside(&self) -> bool
        ensures { result ≡ is_outside (standing_of self.now) }
    {
        matches!(self, Place::Outside)
    }
}

// The state between two requests.
ghost use Rattle.std.specs.Prelude.{◌≡◌, IfOk, codes};
ghost use Rattle.scene_state.specs.State.{first_state};

use crate::attributes::Attributes;
use crate::prims::Prims;
use crate::shaders::{Handle, Shaders};
use fixed_math::{List, NoMemory, Text};
use moving_maps::MovingMap;
use scene::{Frame, Shared};
use scene_parts::Choices;
use std::alloc::Global;
use transforms::{Affine, Camera};

/// An open block, with what its end brings back.
#[derive(Drop)]
pub(crate) enum Block {
    InFrame {
        attributes: Attributes,
        current: MovingMap,
        choices: Choices,
        name: Shared<Text>,
    },
    InWorld {
        attributes: Attributes,
        current: MovingMap,
    },
    InAttributes {
        attributes: Attributes,
        current: MovingMap,
    },
    InTransform {
        current: MovingMap,
    },
}

/// What an open world is seen by: its camera, and the map from world space to camera space, which may move.
#[derive(Clone, Copy)]
pub(crate) struct World {
    pub(crate) camera: Camera,
    pub(crate) to_camera: MovingMap,
}

/// The options with the name of the picture; the attributes; the current transformation, which may move; the open blocks, the innermost
/// last; the open world, and its primitives so far; the lights' numbers since the last world; all shader requests; and the
/// frames so far.
#[derive(Drop)]
pub(crate) struct State {
    pub(crate) choices: Choices,
    pub(crate) name: Shared<Text>,
    pub(crate) attributes: Attributes,
    pub(crate) current: MovingMap,
    pub(crate) blocks: List<Block>,
    pub(crate) world: Option<World>,
    pub(crate) prims: Prims,
    pub(crate) handles: List<Handle>,
    pub(crate) shaders: Shaders,
    pub(crate) frames: List<Frame>,
}

// The picture's name before the first request.
fn first_name(alloc: Global) -> Result<Shared<Text>, NoMemory>
    ensures { IfOk result (λ n. n ≡ codes "out.ppm") }
{
    Shared::new(alloc, Text::from_bytes(alloc, b"out.ppm")?)
}

impl State {
    /// The state before the first request.
    pub(crate) fn first(alloc: Global) -> Result<State, NoMemory>
        ensures { IfOk result (λ s. s ≡ first_state) }
    {
        let name = first_name(alloc)?;
        let attributes = Attributes::first(alloc)?;
        let shaders = Shaders::first(alloc)?;
        Ok(State {
            choices: Choices::first(),
            name,
            attributes,
            current: MovingMap::still(Affine::identity()),
            blocks: List(Vec::new(alloc)),
            world: None,
            prims: Prims::new(alloc),
            handles: List(Vec::new(alloc)),
            shaders,
            frames: List(Vec::new(alloc)),
        })
    }
}

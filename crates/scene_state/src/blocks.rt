// Blocks: what they save, and what their ends bring back.
ghost use Rattle.std.specs.Prelude.{◌≡◌, Some, [], ◌∷◌, ◌++◌, IfOk};
ghost use Rattle.scene_state.specs.State.{opened, motion_begun, innermost, outer, frame_begun, closed, frame_ended, frame_of, frame_made, attributes_ended, transform_ended, world_begun, world_ended};
ghost use Rattle.scene_state.specs.Answers.{Steps};
ghost use Rattle.scene_state.specs.declared.state.Block.TheVariants.{InAttributes, InTransform};

use crate::attributes::Attributes;
use crate::fault::StepFault;
use crate::state::{Block, State, World};
use fixed_math::{List, NoMemory};
use moving_maps::MovingMap;
use scene::Frame;
use scene_parts::{LightsInForce, StateCode};
use std::alloc::Global;
use transforms::{Affine, Camera};

const MOST_BLOCKS: usize = 64;

const MOST_FRAMES: usize = 1000;

// Takes the innermost block out.
fn take_innermost(blocks: &mut List<Block>) -> Option<Block>
    ensures block { result ≡ innermost blocks.old }
    ensures rest { blocks.new ≡ outer blocks.old }
{
    blocks.0.pop()
}

impl State {
    fn open(&mut self, block: Block) -> Result<(), StepFault>
        ensures { Steps result (opened block self.old) self.new }
    {
        if self.blocks.len() >= MOST_BLOCKS {
            return Err(StepFault::Refused(StateCode::M1));
        }
        self.blocks.0.push(block)?;
        Ok(())
    }

    // Closes the innermost block.
    fn close(&mut self) -> Option<Block>
        ensures block { result ≡ innermost self.old.blocks }
        ensures closed { self.new ≡ closed self.old }
    {
        take_innermost(&mut self.blocks)
    }

    // Brings back what a block saved. Where a world has ended in the block, no light that was in force at its start has a number.
    fn restore(
        &mut self,
        alloc: Global,
        attributes: Attributes,
        current: MovingMap,
    ) -> Result<(), NoMemory>
        ensures { IfOk result (λ _. self.new ≡ record self.old { attributes = attributes; current = current }) }
    {
        self.attributes = attributes;
        self.current = current;
        let first = self.first_named().unwrap_or(self.shaders.slots.len());
        self.attributes.lights.settle(alloc, first)
    }

    /// Begins a motion block, which is none of those that save something.
    pub(crate) fn begin_motion(&self) -> Result<(), StepFault>
        ensures { Steps result (motion_begun self.now) self.now }
    {
        if self.blocks.len() >= MOST_BLOCKS {
            return Err(StepFault::Refused(StateCode::M1));
        }
        Ok(())
    }

    pub(crate) fn begin_frame(&mut self) -> Result<(), StepFault>
        ensures { Steps result (frame_begun self.old) self.new }
    {
        if self.blocks.len() != 0 {
            return Err(StepFault::Refused(StateCode::N1));
        }
        let block = Block::InFrame {
            attributes: self.attributes.shared()?,
            current: self.current,
            choices: self.choices,
            name: self.name.shared()?,
        };
        self.open(block)
    }

    pub(crate) fn end_frame(&mut self, alloc: Global) -> Result<(), StepFault>
        ensures { Steps result (frame_ended (innermost self.old.blocks) self.old) self.new }
    {
        match self.close() {
            Some(
                Block::InFrame {
                    attributes,
                    current,
                    choices,
                    name,
                },
            ) => {
                self.choices = choices;
                self.name = name;
                self.restore(alloc, attributes, current)?;
                Ok(())
            }
            _ => Err(StepFault::Refused(StateCode::N1)),
        }
    }

    pub(crate) fn begin_attributes(&mut self) -> Result<(), StepFault>
        ensures { Steps result (opened (InAttributes self.old.attributes self.old.current) self.old) self.new }
    {
        let block = Block::InAttributes {
            attributes: self.attributes.shared()?,
            current: self.current,
        };
        self.open(block)
    }

    pub(crate) fn end_attributes(&mut self, alloc: Global) -> Result<(), StepFault>
        ensures { Steps result (attributes_ended (innermost self.old.blocks) self.old) self.new }
    {
        match self.close() {
            Some(
                Block::InAttributes {
                    attributes,
                    current,
                },
            ) => {
                self.restore(alloc, attributes, current)?;
                Ok(())
            }
            _ => Err(StepFault::Refused(StateCode::N1)),
        }
    }

    pub(crate) fn begin_transform(&mut self) -> Result<(), StepFault>
        ensures { Steps result (opened (InTransform self.old.current) self.old) self.new }
    {
        self.open(Block::InTransform {
            current: self.current,
        })
    }

    pub(crate) fn end_transform(&mut self) -> Result<(), StepFault>
        ensures { Steps result (transform_ended (innermost self.old.blocks) self.old) self.new }
    {
        match self.blocks.as_slice().last() {
            Some(Block::InTransform { current }) => {
                let current = *current;
                self.close();
                self.current = current;
                Ok(())
            }
            _ => Err(StepFault::Refused(StateCode::N1)),
        }
    }

    pub(crate) fn begin_world(&mut self) -> Result<(), StepFault>
        ensures { Steps result (world_begun self.old) self.new }
    {
        if self.world.is_some() {
            return Err(StepFault::Refused(StateCode::N1));
        }
        let camera = Camera::new(self.choices.view())?;
        let block = Block::InWorld {
            attributes: self.attributes.shared()?,
            current: self.current,
        };
        self.world = Some(World {
            camera,
            to_camera: self.current,
        });
        self.current = MovingMap::still(Affine::identity());
        self.open(block)
    }

    // The frame of a world, whose primitives it takes.
    fn take_frame(&mut self, alloc: Global, world: &World) -> Result<Frame, NoMemory>
        ensures frame { IfOk result (λ frame. frame ≡ frame_of world.now self.old) }
        ensures taken { IfOk result (λ _. self.new ≡ record self.old { prims = [] }) }
    {
        let view = world.camera.view();
        Ok(Frame {
            name: self.name.shared()?,
            options: self.choices.picture(view.width, view.height),
            camera: world.camera,
            world: *world.to_camera.first(),
            prims: self.prims.take(alloc),
        })
    }

    // Adds the frame of a world.
    fn add_frame(&mut self, alloc: Global, world: &World) -> Result<(), NoMemory>
        ensures { IfOk result (λ _. self.new ≡ record self.old { prims = []; frames = self.old.frames ++ frame_of world.now self.old ∷ [] }) }
    {
        let frame = self.take_frame(alloc, world)?;
        self.frames.0.push(frame)?;
        Ok(())
    }

    // The frame of the open world, where what the world's block saved is back.
    fn make_frame(&mut self, alloc: Global, world: &World) -> Result<(), StepFault>
        ensures { Steps result (frame_made (Some world.now) self.old.attributes self.old.current self.old) self.new }
    {
        if self.frames.len() >= MOST_FRAMES {
            return Err(StepFault::Refused(StateCode::M2));
        }
        self.add_frame(alloc, world)?;
        self.attributes.lights = LightsInForce::none(alloc)?;
        self.world = None;
        self.handles = List(Vec::new(alloc));
        Ok(())
    }

    pub(crate) fn end_world(&mut self, alloc: Global) -> Result<(), StepFault>
        ensures { Steps result (world_ended (innermost self.old.blocks) self.old) self.new }
    {
        match self.close() {
            Some(
                Block::InWorld {
                    attributes,
                    current,
                },
            ) => {
                self.restore(alloc, attributes, current)?;
                match self.world {
                    Some(world) => self.make_frame(alloc, &world),
                    None => Err(StepFault::Refused(StateCode::N1)),
                }
            }
            _ => Err(StepFault::Refused(StateCode::N1)),
        }
    }
}

// What each request does to the state.
ghost use Rattle.std.specs.Prelude.{◌≡◌};
ghost use Rattle.rib_reader.specs.Reading.{plain};
ghost use Rattle.rib_reader.specs.declared.req.Req.TheVariants as reqs;
ghost use Rattle.scene_state.specs.State.{option_set, display_set};
ghost use Rattle.scene_state.specs.Steps.{look_set, bases_set, after};
ghost use Rattle.scene_state.specs.Unnamed.{LastAreAt};
ghost use Rattle.scene_state.specs.Answers.{Steps};

use crate::fault::StepFault;
use crate::state::State;
use moving_maps::When;
use rib_reader::{Req, Request};
use scene::Shared;
use scene_parts::StateCode;
use std::alloc::Global;

impl State {
    fn set_look(&mut self, request: &Request)
        ensures { look_set (plain request.now) self.old ≡ Ok self.new }
    {
        self.attributes.look = self.attributes.look.after(request);
    }

    fn set_bases(&mut self, request: &Request)
        requires { request.now.name ≡ reqs.Basis }
        ensures { bases_set (plain request.now) self.old ≡ Ok self.new }
    {
        self.attributes.bases = self.attributes.bases.after(request);
    }

    fn set_option(&mut self, request: &Request) -> Result<(), StepFault>
        ensures { Steps result (option_set (plain request.now) self.old) self.new }
    {
        if self.world.is_some() {
            return Err(StepFault::Refused(StateCode::N2));
        }
        match self.choices.chosen(request) {
            Ok(choices) => {
                self.choices = choices;
                Ok(())
            }
            Err(code) => Err(StepFault::Refused(code)),
        }
    }

    fn set_display(&mut self, alloc: Global, request: &Request) -> Result<(), StepFault>
        requires { request.now.name ≡ reqs.Display }
        ensures { Steps result (display_set (plain request.now) self.old) self.new }
    {
        if self.world.is_some() {
            return Err(StepFault::Refused(StateCode::N2));
        }
        let name = request.word(0);
        if !name.as_str().starts_with('+') {
            self.name = Shared::new(alloc, name.copied(alloc)?)?;
        }
        Ok(())
    }

    /// Changes the state by a request outside of motion blocks. The fault is the first that the request gives, of its nesting, of
    /// its geometry, or of a limit.
    pub(crate) fn step(&mut self, alloc: Global, request: &Request) -> Result<(), StepFault>
        requires { LastAreAt self.old }
        ensures { Steps result (after (plain request.now) self.old) self.new }
    {
        match request.name {
            Req::FrameBegin => self.begin_frame(),
            Req::FrameEnd => self.end_frame(alloc),
            Req::WorldBegin => self.begin_world(),
            Req::WorldEnd => self.end_world(alloc),
            Req::AttributeBegin => self.begin_attributes(),
            Req::AttributeEnd => self.end_attributes(alloc),
            Req::TransformBegin => self.begin_transform(),
            Req::TransformEnd => self.end_transform(),
            Req::Shutter
            | Req::Format
            | Req::FrameAspectRatio
            | Req::ScreenWindow
            | Req::CropWindow
            | Req::Clipping
            | Req::Projection
            | Req::PixelSamples
            | Req::PixelFilter
            | Req::Exposure
            | Req::Quantize => self.set_option(request),
            Req::Display => self.set_display(alloc, request),
            Req::Color
            | Req::Opacity
            | Req::ShadingRate
            | Req::ShadingInterpolation
            | Req::Sides
            | Req::Orientation
            | Req::ReverseOrientation
            | Req::Attribute => {
                self.set_look(request);
                Ok(())
            }
            Req::Surface => self.set_surface(alloc, request),
            Req::Displacement => self.set_displacement(alloc, request),
            Req::Atmosphere => self.set_atmosphere(alloc, request),
            Req::LightSource => self.make_light(alloc, request),
            Req::Illuminate => self.illuminate(alloc, request),
            Req::Identity => {
                self.set_identity();
                Ok(())
            }
            Req::Transform | Req::ConcatTransform | Req::Translate | Req::Scale | Req::Rotate =>
                self.turn(When::Always, request),
            Req::Basis => {
                self.set_bases(request);
                Ok(())
            }
            Req::Patch => self.place_primitive(alloc, request),
            Req::PatchMesh => self.place_primitive(alloc, request),
            Req::Polygon => self.place_primitive(alloc, request),
            Req::PointsPolygons => self.place_primitive(alloc, request),
            Req::Sphere => self.place_primitive(alloc, request),
            Req::Cylinder => self.place_primitive(alloc, request),
            Req::Cone => self.place_primitive(alloc, request),
            Req::Disk => self.place_primitive(alloc, request),
            _ => Ok(()),
        }
    }
}

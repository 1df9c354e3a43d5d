// Frames, primitives and their variables.
ghost use Rattle.scene.specs.Scene.{PrimValue, FrameValue, SceneValue, IsPrim, IsFrame, IsScene};

use crate::lights::LightPlaces;
use crate::options::Options;
use crate::shared::Shared;
use crate::uses::ShaderUse;
use crate::variables::PrimitiveVariables;
use fixed_math::{List, Num, Text, Vec3};
use quadrics::AnyPatch;
use std::marker::Model;
use transforms::{Affine, Camera};

/// A primitive (RenderMan Interface 3.2, section 5).
///
/// The patch's control points are in camera space. Where it moves while the shutter is open, `closing` is the patch when that
/// closes. `flat` is the normal of a flat polygon; `cs` and `os` are colour and opacity. `surface`, `displacement`, `atmosphere`
/// and `lights` are places among the scene's uses, of those kinds. Displacement moves a point by at most `bound` in camera space,
/// raw 0 to 2^29. `rate` is the shading rate in square pixels. Where it is `one_sided`, `flip` turns the side that is seen. Where
/// it is `smooth`, colour and opacity vary over a micropolygon. `object` maps object space to camera space. `place` is the column
/// c of m and the row d of n that the patch has in its mesh, as [c, m, d, n], with m and n at most 65,536. `line` is that of its
/// request.
#[derive(Drop)]
pub struct Primitive {
    pub patch: AnyPatch,
    pub closing: Option<AnyPatch>,
    pub flat: Option<Vec3>,
    pub cs: Vec3,
    pub os: Vec3,
    pub surface: u32,
    pub displacement: Option<u32>,
    pub atmosphere: Option<u32>,
    pub lights: LightPlaces,
    pub bound: Num,
    pub rate: Num,
    pub one_sided: bool,
    pub flip: bool,
    pub smooth: bool,
    pub vars: PrimitiveVariables,
    pub object: Affine,
    pub place: [u32; 4],
    pub line: u32,
}

impl Model for Primitive {
    ghost Value = { PrimValue };

    ghost view = { λ p. record { patch = p.patch; closing = p.closing; flat = p.flat; cs = p.cs; os = p.os; surface = p.surface; displacement = p.displacement; atmosphere = p.atmosphere; lights = p.lights; bound = p.bound; rate = p.rate; one_sided = p.one_sided; flip = p.flip; smooth = p.smooth; vars = p.vars; object = p.object; place = p.place; line = p.line } };

    ghost invariant = { λ p. IsPrim (record { patch = p.patch; closing = p.closing; flat = p.flat; cs = p.cs; os = p.os; surface = p.surface; displacement = p.displacement; atmosphere = p.atmosphere; lights = p.lights; bound = p.bound; rate = p.rate; one_sided = p.one_sided; flip = p.flip; smooth = p.smooth; vars = p.vars; object = p.object; place = p.place; line = p.line }) };
}

/// A frame: the name of its picture, its options, its camera, the map from world space to camera space, and at most
/// 65,536 primitives in the order of the scene. The options' crop has a pixel, and lies in what the camera sees.
#[derive(Drop)]
pub struct Frame {
    pub name: Shared<Text>,
    pub options: Options,
    pub camera: Camera,
    pub world: Affine,
    pub prims: List<Primitive>,
}

impl Model for Frame {
    ghost Value = { FrameValue };

    ghost view = { λ f. record { name = f.name; options = f.options; camera = f.camera; world = f.world; prims = f.prims } };

    ghost invariant = { λ f. IsFrame (record { name = f.name; options = f.options; camera = f.camera; world = f.world; prims = f.prims }) };
}

/// A scene: its frames in order, and the shader requests that some primitive has, each once, in the order of first use.
/// A primitive's places among the uses are there, and their uses of the right kinds.
#[derive(Drop)]
pub struct Scene {
    pub frames: List<Frame>,
    pub uses: List<ShaderUse>,
}

impl Model for Scene {
    ghost Value = { SceneValue };

    ghost view = { λ s. record { frames = s.frames; uses = s.uses } };

    ghost invariant = { λ s. IsScene (record { frames = s.frames; uses = s.uses }) };
}

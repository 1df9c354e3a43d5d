// Transformations and spaces.
ghost use Rattle.std.specs.Prelude.{◌≡◌, Some, map, length};
ghost use Rattle.fixed_math.specs.Decimal.{num};
ghost use Rattle.rib_reader.specs.Rules.{raw_at, numbers_at};
ghost use Rattle.rib_reader.specs.declared.req.Req.TheVariants as reqs;
ghost use Rattle.rib_reader.specs.Reading.{plain};
ghost use Rattle.transforms.specs.Map.{identity};
ghost use Rattle.moving_maps.specs.MapPairs.{still};
ghost use Rattle.scene_state.specs.State.{before_by, change_of, instead_by, last_space_of, of_rows, rotated_by, scaled_by, space_of, times_of, translated_by, turned};
ghost use Rattle.scene_state.specs.Answers.{Steps};

use crate::fault::StepFault;
use crate::state::State;
use fixed_math::{Decimal, Vec3};
use moving_maps::{Change, MovingMap, Times, When};
use rib_reader::{Req, Request};
use transforms::{Affine, FormFault};

// The map that sixteen numbers give.
fn of_rows(rows: &[Decimal]) -> Result<Affine, FormFault>
    requires { length rows.now ≡ 16 }
    ensures { result ≡ of_rows (Some rows.now) }
{
    let mut decimals = [rows[0]; 16];
    decimals.copy_from_slice(rows);
    Affine::concat(&decimals.map(|decimal| decimal.num()))
}

// A map that goes before the current transformation.
fn before_by(map: Result<Affine, FormFault>) -> Result<Change, FormFault>
    ensures { result ≡ before_by map }
{
    Ok(Change::Before(map?))
}

// A map that stands in the current transformation's place.
fn instead_by(map: Result<Affine, FormFault>) -> Result<Change, FormFault>
    ensures { result ≡ instead_by map }
{
    Ok(Change::Instead(map?))
}

// What a translation does.
fn translation(request: &Request) -> Result<Change, FormFault>
    requires { request.now.name ≡ reqs.Translate }
    ensures { result ≡ before_by (translated_by (raw_at request.now.args 0) (raw_at request.now.args 1) (raw_at request.now.args 2)) }
{
    let by = Vec3 {
        x: request.number(0),
        y: request.number(1),
        z: request.number(2),
    };
    Ok(Change::Before(Affine::translate(by)))
}

// What a scale does.
fn scaling(request: &Request) -> Result<Change, FormFault>
    requires { request.now.name ≡ reqs.Scale }
    ensures { result ≡ before_by (scaled_by (raw_at request.now.args 0) (raw_at request.now.args 1) (raw_at request.now.args 2)) }
{
    let by = Vec3 {
        x: request.number(0),
        y: request.number(1),
        z: request.number(2),
    };
    before_by(Affine::scale(by))
}

// What a rotation does.
fn rotation(request: &Request) -> Result<Change, FormFault>
    requires { request.now.name ≡ reqs.Rotate }
    ensures { result ≡ before_by (rotated_by (raw_at request.now.args 0) (raw_at request.now.args 1) (raw_at request.now.args 2) (raw_at request.now.args 3)) }
{
    let axis = Vec3 {
        x: request.number(1),
        y: request.number(2),
        z: request.number(3),
    };
    before_by(Affine::rotate(request.number(0), axis))
}

// What a request does to the current transformation.
fn change_of(request: &Request) -> Result<Change, FormFault>
    ensures { result ≡ change_of (plain request.now) }
{
    match request.name {
        Req::Transform => instead_by(of_rows(request.array(0, 16))),
        Req::ConcatTransform => before_by(of_rows(request.array(0, 16))),
        Req::Translate => translation(request),
        Req::Scale => scaling(request),
        Req::Rotate => rotation(request),
        _ => Ok(Change::Before(Affine::identity())),
    }
}

impl State {
    /// The current transformation forgets all.
    pub(crate) fn set_identity(&mut self)
        ensures { self.new ≡ record self.old { current = still identity } }
    {
        self.current = MovingMap::still(Affine::identity());
    }

    /// Changes the current transformation by a request that is of these times.
    pub(crate) fn turn(&mut self, when: When, request: &Request) -> Result<(), StepFault>
        ensures { Steps result (turned when (plain request.now) self.old) self.new }
    {
        let change = change_of(request)?;
        self.current = self.current.behind(&when, &change)?;
        Ok(())
    }

    /// The map from the current space to camera space, at the first time.
    pub(crate) fn space(&self) -> Result<Affine, FormFault>
        ensures { result ≡ space_of self.now }
    {
        match &self.world {
            Some(world) => world.to_camera.first().before(self.current.first()),
            None => Ok(*self.current.first()),
        }
    }

    /// The same at the last time.
    pub(crate) fn last_space(&self) -> Result<Affine, FormFault>
        ensures { result ≡ last_space_of self.now }
    {
        match &self.world {
            Some(world) => world.to_camera.last().before(self.current.last()),
            None => Ok(*self.current.last()),
        }
    }

    /// The times of the motions in force.
    pub(crate) fn times(&self) -> Times
        ensures { result ≡ times_of self.now }
    {
        match &self.world {
            Some(world) => world.to_camera.times().joined(self.current.times()),
            None => self.current.times(),
        }
    }
}

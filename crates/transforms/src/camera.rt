// Cameras.
ghost use Rattle.std.specs.Prelude.{◌≡◌, ◌≤◌, ◌<◌, ◌^◌, pos, ◌≤ℤ◌, ◌<ℤ◌, List, [], ◌∷◌, unsigned_abs};
ghost use Rattle.fixed_math.specs.declared.vec3.Vec3.{Vec3};
ghost use Rattle.transforms.specs.declared.view.View.{View};
ghost use Rattle.transforms.specs.Field.{left, right, bottom, top, scale_of, camera_of, IsView};
ghost use Rattle.transforms.specs.Raster.{GoesRight, GoesUp, raster_x, raster_y, x_place, y_place, clamped};

use crate::fault::FormFault;
use crate::field;
use crate::place::{clamped, x_place, y_place};
use crate::view::View;
use fixed_math::Vec3;
use std::marker::Model;

/// A camera at the origin that looks along z. Contracts see it as its view.
#[derive(Clone, Copy)]
pub struct Camera {
    view: View,
    scale: Option<u32>,
}

impl Model for Camera {
    ghost Value = { View };

    ghost view = { λ c. c.view };

    ghost invariant = { λ c. (c.scale ≡ scale_of c.view) × IsView c.view };

    ghost inverse = { λ v. record { view = v; scale = scale_of v } };
}

impl Camera {
    /// The camera of a view, where its field of view is one (RenderMan Interface 3.2, Projection). The only refusal
    /// is `G3`: a field that isn't above 0 and below 180 degrees, or one whose tangent is below the least raw.
    pub fn new(view: View) -> Result<Camera, FormFault>
        requires near { pos 1 ≤ℤ view.near }
        requires far { view.near <ℤ view.far }
        requires across { left view <ℤ right view }
        requires up { bottom view <ℤ top view }
        requires width { 1 ≤ view.width }
        requires width_limit { view.width ≤ 4096 }
        requires height { 1 ≤ view.height }
        requires height_limit { view.height ≤ 4096 }
        ensures { result ≡ camera_of view }
    {
        let scale = match view.fov {
            None => None,
            Some(fov) => match field::scale(fov) {
                None => return Err(FormFault::G3),
                Some(scale) => Some(scale),
            },
        };
        Ok(Camera { view, scale })
    }

    /// The view that the camera was made of.
    pub fn view(&self) -> &View
        ensures value { result.now ≡ self.now }
        ensures valid { IsView self.now }
    {
        &self.view
    }

    /// Does nothing: a call tells a proof what holds of every camera's view.
    pub(crate) fn recall(&self)
        ensures { IsView self.now }
    {
        let _view = &self.view;
    }

    /// How far across a point of camera space lies on the raster, in 1/256 pixel, put into -2^28 to 2^28.
    pub fn column(&self, p: Vec3) -> i64
        requires { self.now.near ≤ℤ p.z }
        ensures value { result ≡ raster_x self.now p }
        ensures bound { unsigned_abs (raster_x self.now p) ≤ 2 ^ 28 }
    {
        // the nearest depth is above 0, and so is this one
        self.recall();
        self.across(p.x.raw(), p.z.raw() as u32)
    }

    /// How far down it lies.
    pub fn row(&self, p: Vec3) -> i64
        requires { self.now.near ≤ℤ p.z }
        ensures value { result ≡ raster_y self.now p }
        ensures bound { unsigned_abs (raster_y self.now p) ≤ 2 ^ 28 }
    {
        // the nearest depth is above 0, and so is this one
        self.recall();
        self.down(p.y.raw(), p.z.raw() as u32)
    }

    /// Where a point of camera space lies on the raster, across and down, in 1/256 pixel, put into -2^28 to 2^28.
    pub fn raster(&self, p: Vec3) -> [i64; 2]
        requires { self.now.near ≤ℤ p.z }
        ensures value { result ≡ raster_x self.now p ∷ raster_y self.now p ∷ [] }
        ensures x_bound { unsigned_abs (raster_x self.now p) ≤ 2 ^ 28 }
        ensures y_bound { unsigned_abs (raster_y self.now p) ≤ 2 ^ 28 }
        ensures right { (q : Vec3) → self.now.fov ≡ None → GoesRight self.now p q }
        ensures up { (q : Vec3) → self.now.fov ≡ None → GoesUp self.now p q }
        ensures right_at_depth { (q : Vec3) → q.z ≡ p.z → GoesRight self.now p q }
        ensures up_at_depth { (q : Vec3) → q.z ≡ p.z → GoesUp self.now p q }
    {
        // the nearest depth is above 0, and so is this one
        self.recall();
        let z = p.z.raw() as u32;
        [self.across(p.x.raw(), z), self.down(p.y.raw(), z)]
    }

    #[tactic(auto, using(crate::proofs::Scales::scale_is_some))]
    pub(crate) fn across(&self, x: i64, z: u32) -> i64
        requires small { unsigned_abs x ≤ 2147483647 }
        requires depth { 0 < z }
        ensures value { result ≡ clamped (x_place (scale_of self.now) self.now.width (left self.now) (right self.now) x z) }
        ensures bound { unsigned_abs result ≤ 2 ^ 28 }
    {
        let [left, right, _, _] = self.view.window;
        clamped(x_place(self.scale, self.view.width, left.raw(), right.raw(), x, z))
    }

    #[tactic(auto, using(crate::proofs::Scales::scale_is_some))]
    pub(crate) fn down(&self, y: i64, z: u32) -> i64
        requires small { unsigned_abs y ≤ 2147483647 }
        requires depth { 0 < z }
        ensures value { result ≡ clamped (y_place (scale_of self.now) self.now.height (bottom self.now) (top self.now) y z) }
        ensures bound { unsigned_abs result ≤ 2 ^ 28 }
    {
        let [_, _, bottom, top] = self.view.window;
        clamped(y_place(self.scale, self.view.height, bottom.raw(), top.raw(), y, z))
    }
}

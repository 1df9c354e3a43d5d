// A micropolygon on the raster with its bounds.
ghost use Rattle.std.specs.Prelude.{◌≡◌};
ghost use Rattle.hider.specs.declared.quad.Quad.{Quad};
ghost use Rattle.hider.specs.Bounding.{bounds_of};
ghost use Rattle.hider.specs.Coverage.{covers};

use crate::bounds::Bounds;
use crate::coverage::covers;
use crate::extremes::{greatest_of, least_of};
use crate::fragment::Fragment;
use crate::list::FragmentList;
use crate::places::Places;
use crate::quad::Quad;
use crate::showing::Showing;
use crate::spot::Spot;
use fixed_math::NoMemory;
use std::marker::Model;

/// A micropolygon with the least box that holds its corners. Contracts see it as the micropolygon.
#[derive(Drop)]
pub(crate) struct BoundedQuad {
    quad: Quad,
    bounds: Bounds,
}

impl Model for BoundedQuad {
    ghost Value = { Quad };

    ghost view = { λ b. b.quad };

    ghost invariant = { λ b. b.bounds ≡ bounds_of b.quad };
}

/// The least box that holds the corners of the micropolygon.
#[tactic(auto, unfolding(crate::specs::Bounding::bounds_of))]
fn bounds_of(quad: &Quad) -> Bounds
    ensures { result ≡ bounds_of quad.now }
{
    let [a, b, c, d] = [quad.a.place, quad.b.place, quad.c.place, quad.d.place];
    Bounds {
        left: least_of(a.x(), b.x(), c.x(), d.x()),
        right: greatest_of(a.x(), b.x(), c.x(), d.x()),
        top: least_of(a.y(), b.y(), c.y(), d.y()),
        bottom: greatest_of(a.y(), b.y(), c.y(), d.y()),
    }
}

impl BoundedQuad {
    /// The micropolygon with its box.
    pub(crate) fn new(quad: Quad) -> BoundedQuad
        ensures { result ≡ quad }
    {
        let bounds = bounds_of(&quad);
        BoundedQuad { quad, bounds }
    }

    /// The box.
    pub(crate) fn bounds(&self) -> &Bounds
        ensures { result.now ≡ bounds_of self.now }
    {
        &self.bounds
    }

    /// What the micropolygon shows at the place `s`, where it covers it: `covers`, after a look at the box.
    fn fragment_at(&self, s: Spot) -> Option<Fragment>
        ensures { result ≡ covers self.now s }
    {
        if s.x() < self.bounds.left {
            return None;
        }
        if self.bounds.right < s.x() {
            return None;
        }
        if s.y() < self.bounds.top {
            return None;
        }
        if self.bounds.bottom < s.y() {
            return None;
        }
        covers(&self.quad, s)
    }
}

impl Showing for BoundedQuad {
    ghost shown = { λ q s. covers q s.place };

    fn put_at(
        &self,
        places: &Places<'_>,
        n: usize,
        list: &mut FragmentList,
    ) -> Result<(), NoMemory> {
        if let Some(f) = self.fragment_at(places.at(n)) {
            list.put(f)?;
        }
        Ok(())
    }
}

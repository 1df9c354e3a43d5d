// A micropolygon at the time of a sample.
ghost use Rattle.std.specs.Prelude.{◌≡◌, ◌<◌, ◌≤ℤ◌, [], ◌∷◌, Bool, IsTrue, OnOk, Some, true};
ghost use Rattle.std.specs.List.{cons_option};
ghost use Rattle.hider.specs.declared.fragment.Fragment.{Fragment};
ghost use Rattle.hider.specs.declared.sample.Sample.{Sample};
ghost use Rattle.hider.specs.CellBoxes.{EnclosesCell};
ghost use Rattle.hider.specs.CellValues.{corner_when, corners_when, cell_when, micropolygon_of};
ghost use Rattle.hider.specs.Extents.{HasOneColour, IsNoNearer};
ghost use Rattle.hider.specs.Flat.{flat_of, flat_quad};
ghost use Rattle.hider.specs.Fragments.{fragment_of, quad_covering};
ghost use Rattle.hider.specs.Bounding.{bounds_of};
ghost use Rattle.hider.specs.Kept.{keep_all};
ghost use Rattle.hider.specs.Outermost.{IsSeenAlways};
ghost use Rattle.hider.specs.Searching.{StaysInSteps, StaysInside};
ghost use Rattle.hider.specs.SeenCorners.{are_seen, points_of};
ghost use Rattle.hider.specs.Tiles.{sample_count, sample_of};

use crate::bounds::Bounds;
use crate::cell::{Cell, CellCorner};
use crate::cells::Cells;
use crate::coverage::covers;
use crate::extents::is_same_point;
use crate::flat_hiding::bounds_of;
use crate::flat_quad::FlatQuad;
use crate::fragment::Fragment;
use crate::list::FragmentList;
use crate::moving_box::MovingBox;
use crate::passing::passed_in_steps;
use crate::places::Places;
use crate::raster_cell::RasterCell;
use crate::raster_point::RasterPoint;
use crate::sample::Sample;
use crate::seen_corners::{are_seen, points_of};
use crate::showing::Showing;
use crate::sight::quad_of;
use crate::steps::step_of;
use fixed_math::{NoMemory, Num, Vec3};
use transforms::Camera;

/// Corner `k` of a cell at a time.
fn corner_when<C: Cells>(cells: &C, cell: usize, k: usize, time: u16) -> CellCorner
    requires cell { cell < (C.values cells.now).count }
    requires corner { k < 4 }
    ensures { result ≡ corner_when (C.values cells.now) cell time k }
{
    CellCorner {
        point: cells.corner(cell, k, time),
        colour: cells.colour(cell, k),
        opacity: cells.opacity(cell, k),
    }
}

/// Cell `cell` at a time.
#[tactic(auto, unfolding(crate::specs::CellValues::cell_when))]
pub(crate) fn cell_when<C: Cells>(cells: &C, cell: usize, time: u16) -> Cell
    requires { cell < (C.values cells.now).count }
    ensures { result ≡ cell_when (C.values cells.now) cell time }
{
    Cell {
        a: corner_when(cells, cell, 0, time),
        b: corner_when(cells, cell, 1, time),
        c: corner_when(cells, cell, 2, time),
        d: corner_when(cells, cell, 3, time),
    }
}

/// Whether corner `k` of a cell has the colour of the first one.
fn has_first_colour<C: Cells>(cells: &C, cell: usize, k: usize) -> bool
    requires cell { cell < (C.values cells.now).count }
    requires corner { k < 4 }
    ensures { IsTrue result → (C.values cells.now).colour cell k ≡ (C.values cells.now).colour cell 0 }
{
    let first = cells.colour(cell, 0);
    is_same_point(cells.colour(cell, k), first)
}

/// The same of its opacity.
fn has_first_opacity<C: Cells>(cells: &C, cell: usize, k: usize) -> bool
    requires cell { cell < (C.values cells.now).count }
    requires corner { k < 4 }
    ensures { IsTrue result → (C.values cells.now).opacity cell k ≡ (C.values cells.now).opacity cell 0 }
{
    let first = cells.opacity(cell, 0);
    is_same_point(cells.opacity(cell, k), first)
}

/// Whether all corners of a cell have the colour and the opacity of the first one.
fn has_one_colour<C: Cells>(cells: &C, cell: usize) -> bool
    requires { cell < (C.values cells.now).count }
    ensures { IsTrue result → HasOneColour (C.values cells.now) cell }
{
    has_first_colour(cells, cell, 1)
        && has_first_colour(cells, cell, 2)
        && has_first_colour(cells, cell, 3)
        && has_first_opacity(cells, cell, 1)
        && has_first_opacity(cells, cell, 2)
        && has_first_opacity(cells, cell, 3)
}

/// Puts in what a micropolygon of one colour shows at sample `n`, unless its one side is turned away.
fn put_flat(
    flat: &RasterCell<'_>,
    bounds: &Bounds,
    one_sided: bool,
    flip: bool,
    places: &Places<'_>,
    n: usize,
    list: &mut FragmentList,
) -> Result<(), NoMemory>
    requires inside { n < sample_count places.now.grid }
    requires bounds { bounds.now ≡ bounds_of (flat_quad (flat_of flat.now)) }
    ensures { OnOk result (list.new ≡ keep_all list.old (quad_covering one_sided flip (flat_quad (flat_of flat.now)) (sample_of places.now.grid n))) }
{
    match FlatQuad::facing(flat, bounds, one_sided, flip) {
        None => Ok(()),
        Some(quad) => quad.put_at(places, n, list),
    }
}

/// A micropolygon that may move, before a camera.
#[derive(Drop)]
pub(crate) struct MovingCell<'a, C: Cells> {
    cells: &'a C,
    cell: usize,
    camera: &'a Camera,
    one_sided: bool,
    flip: bool,
    /// The colour and opacity of its first corner.
    colour: Vec3,
    opacity: Vec3,
    /// Whether all corners have these.
    is_flat: bool,
    /// A box in camera space that holds it.
    round: MovingBox,
    /// Whether the camera sees all of that in depth at all times.
    is_seen: bool,
    /// Whether it goes further up or down than to a side.
    is_steep: bool,
    /// The least depth of its corners at all times.
    nearest: Num,
    /// For each step of the shutter's interval the box on the raster of all that the cell passes in it.
    pub(crate) passed: [Bounds; 8],
    ghost inside: { cell < (C.values cells.now).count },
    ghost colour_is: { colour ≡ (C.values cells.now).colour cell 0 },
    ghost opacity_is: { opacity ≡ (C.values cells.now).opacity cell 0 },
    ghost one_colour: { IsTrue is_flat → HasOneColour (C.values cells.now) cell },
    ghost held: { EnclosesCell (C.values cells.now) cell round },
    ghost seen: { IsTrue is_seen → IsSeenAlways camera.now round },
    ghost no_nearer: { IsNoNearer nearest (λ s. fragment_of camera.now s (micropolygon_of (C.values cells.now) one_sided flip cell)) },
    ghost in_steps: { StaysInSteps passed (λ s. fragment_of camera.now s (micropolygon_of (C.values cells.now) one_sided flip cell)) },
}

impl<'a, C: Cells> MovingCell<'a, C> {
    /// A cell before a camera, which lies in a moving box, and of which nothing shows outside a box on the raster.
    pub(crate) fn new(
        cells: &'a C,
        cell: usize,
        round: MovingBox,
        whole: Bounds,
        camera: &'a Camera,
        one_sided: bool,
        flip: bool,
    ) -> MovingCell<'a, C>
        requires cell { cell < (C.values cells.now).count }
        requires round { EnclosesCell (C.values cells.now) cell round }
        requires whole { StaysInside whole (λ s. fragment_of camera.now s (micropolygon_of (C.values cells.now) one_sided flip cell)) }
        ensures cells { result.cells.now ≡ cells.now }
        ensures cell { result.cell ≡ cell }
        ensures camera { result.camera.now ≡ camera.now }
        ensures one_sided { result.one_sided ≡ one_sided }
        ensures flip { result.flip ≡ flip }
    {
        let is_seen = round.is_seen(camera);
        MovingCell {
            cells,
            cell,
            camera,
            one_sided,
            flip,
            colour: cells.colour(cell, 0),
            opacity: cells.opacity(cell, 0),
            is_flat: has_one_colour(cells, cell),
            round,
            is_seen,
            is_steep: round.is_steep(),
            nearest: round.nearest(),
            passed: passed_in_steps(&round, is_seen, whole, camera),
        }
    }

    /// What shows at a sample.
    #[tactic(auto, unfolding(crate::specs::Fragments::fragment_of))]
    fn fragment_at(&self, s: &Sample) -> Option<Fragment>
        ensures { result ≡ fragment_of self.now.camera.now s.now (micropolygon_of (C.values self.now.cells.now) self.now.one_sided self.now.flip self.now.cell) }
    {
        let cell = cell_when(self.cells, self.cell, s.time);
        match quad_of(self.camera, &cell, self.one_sided, self.flip) {
            None => None,
            Some(quad) => covers(&quad, s.place),
        }
    }

    /// Puts in what shows at a sample that is number `n`, where these are the corners at its time, all seen in depth.
    fn put_points(
        &self,
        places: &Places<'_>,
        n: usize,
        sample: &Sample,
        points: &[RasterPoint; 4],
        list: &mut FragmentList,
    ) -> Result<(), NoMemory>
        requires inside { n < sample_count places.now.grid }
        requires sample { sample.now ≡ sample_of places.now.grid n }
        requires points { points.now ≡ points_of self.now.camera.now (corners_when (C.values self.now.cells.now) self.now.cell sample.now.time) }
        requires seen { are_seen self.now.camera.now (corners_when (C.values self.now.cells.now) self.now.cell sample.now.time) ≡ true }
        ensures { OnOk result (list.new ≡ keep_all list.old (cons_option (fragment_of self.now.camera.now sample.now (micropolygon_of (C.values self.now.cells.now) self.now.one_sided self.now.flip self.now.cell)) [])) }
    {
        let flat = RasterCell {
            a: &points[0],
            b: &points[1],
            c: &points[2],
            d: &points[3],
            colour: &self.colour,
            opacity: &self.opacity,
        };
        let bounds = bounds_of(&flat);
        if !bounds.holds(sample.place) {
            return Ok(());
        }
        if self.is_flat {
            return put_flat(&flat, &bounds, self.one_sided, self.flip, places, n, list);
        }
        match self.fragment_at(sample) {
            None => Ok(()),
            Some(f) => list.put(f),
        }
    }

    /// Whether the box round the cell lies beside a sample at its time, so that nothing shows there. Most samples in the box of all
    /// that it passes in a step of the shutter's interval lie before it or behind it on its way, so these sides are looked at first.
    fn is_beside(&self, sample: &Sample) -> bool
        ensures { IsTrue result → fragment_of self.now.camera.now sample.now (micropolygon_of (C.values self.now.cells.now) self.now.one_sided self.now.flip self.now.cell) ≡ None }
    {
        if !self.is_seen {
            return false;
        }
        if self.is_steep {
            self.round.is_over(self.camera, sample) || self.round.is_aside(self.camera, sample)
        } else {
            self.round.is_aside(self.camera, sample) || self.round.is_over(self.camera, sample)
        }
    }

    /// Puts in what shows at a sample that is number `n`.
    fn put_sample(
        &self,
        places: &Places<'_>,
        n: usize,
        sample: &Sample,
        list: &mut FragmentList,
    ) -> Result<(), NoMemory>
        requires inside { n < sample_count places.now.grid }
        requires sample { sample.now ≡ sample_of places.now.grid n }
        ensures { OnOk result (list.new ≡ keep_all list.old (cons_option (fragment_of self.now.camera.now sample.now (micropolygon_of (C.values self.now.cells.now) self.now.one_sided self.now.flip self.now.cell)) [])) }
    {
        let corners = self.cells.corners(self.cell, sample.time);
        if !are_seen(self.camera, &corners) {
            return Ok(());
        }
        let points = points_of(self.camera, &corners);
        self.put_points(places, n, sample, &points, list)
    }
}

impl<'a, C: Cells> Showing for MovingCell<'a, C> {
    ghost shown = { λ m s. fragment_of m.camera.now s (micropolygon_of (C.values m.cells.now) m.one_sided m.flip m.cell) };

    fn put_at(
        &self,
        places: &Places<'_>,
        n: usize,
        list: &mut FragmentList,
    ) -> Result<(), NoMemory> {
        let sample = places.sample(n);
        let passed = &self.passed[step_of(sample.time)];
        if !passed.holds(sample.place) {
            return Ok(());
        }
        if list.hides(self.nearest) {
            return Ok(());
        }
        if self.is_beside(&sample) {
            return Ok(());
        }
        self.put_sample(places, n, &sample, list)
    }
}

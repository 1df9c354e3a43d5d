// A tile of samples, in which cells are hidden.
ghost use Rattle.std.specs.Prelude.{ℕ, ◌≡◌, ◌<◌, ◌≤◌, ◌↔◌, true, [], ◌∷◌, map, IsTrue, IfOk, OnErr, OnOk, List, length, slice_index_or, vec_capacity};
ghost use Rattle.hider.specs.declared.fragment.Fragment.{Fragment};
ghost use Rattle.hider.specs.declared.sample.Sample.{Sample};
ghost use Rattle.hider.specs.CellValues.{micropolygons_of, values_of};
ghost use Rattle.hider.specs.Cells.{still, cells_of};
ghost use Rattle.hider.specs.Composite.{composite};
ghost use Rattle.hider.specs.Flat.{ShowsSeen};
ghost use Rattle.hider.specs.Kept.{blocks};
ghost use Rattle.hider.specs.StepRows.{IsTile};
ghost use Rattle.hider.specs.Tiles.{TileValue, IsSampleGrid, Shows, BlocksAll, HidesGrid, grid_of, sample_count, sample_of, with_covering};

use crate::cells::Cells;
use crate::grid_cells::GridCells;
use crate::hiding::{hide_all, hide_grid_cells, hide_seen_grid};
use crate::list::FragmentList;
use crate::places::Places;
use crate::rooms::{all_block, fill_lists, fill_places, fill_times, next_open};
use crate::sample_grid::SampleGrid;
use crate::seen_grid::SeenGrid;
use crate::spot::Spot;
use crate::steps::StepSamples;
use crate::timed::{TimedPlaces, find_steps};
use fixed_math::{NoMemory, Num, Vec3};
use std::alloc::Global;
use std::marker::Model;
use transforms::Camera;

/// The samples of a rectangle of pixels, and the fragments that can show at each. Contracts say of what it shows that it is
/// what a function of samples gives: all fragments at a sample, in order of depth.
#[derive(Drop)]
pub struct Tile {
    grid: SampleGrid,
    // of at least as many samples as the grid has, so that the memory serves for further grids
    spots: Vec<Spot>,
    // none until something moves in the tile
    times: Vec<u16>,
    // likewise, by the steps of the shutter's interval
    steps: Vec<StepSamples>,
    lists: Vec<FragmentList>,
    // the first sample without an opaque fragment, mostly
    open: usize,
}

impl Model for Tile {
    ghost Value = { TileValue };

    ghost view = { λ t. record { grid = t.grid; lists = t.lists.items } };

    ghost invariant = { λ t. IsTile t.grid t.spots.items t.times.items t.steps.items t.lists.items };
}

/// Which samples those of a rectangle are, given by its left, top, right and bottom.
fn grid_of(rect: [u32; 4], xs: u32, ys: u32) -> SampleGrid
    ensures { result ≡ grid_of rect xs ys }
{
    let [left, top, right, bottom] = rect;
    SampleGrid {
        left,
        top,
        right,
        bottom,
        xs,
        ys,
    }
}

impl Tile {
    /// A tile of the pixels from the left one of `rect` to below its right one, and from its top to below its bottom one, in
    /// this order, within 4096 by 4096, with `xs` by `ys` samples a pixel, each 1 to 16. Nothing shows at them.
    pub fn new(alloc: Global, rect: [u32; 4], xs: u32, ys: u32) -> Result<Tile, NoMemory>
        requires { IsSampleGrid (grid_of rect xs ys) }
        ensures grid { IfOk result (λ tile. tile.grid ≡ grid_of rect xs ys) }
        ensures empty { IfOk result (λ tile. Shows tile (λ s. [])) }
    {
        let grid = grid_of(rect, xs, ys);
        let mut spots = Vec::with_capacity(alloc, grid.count())?;
        let mut lists = Vec::with_capacity(alloc, grid.count())?;
        fill_places(&mut spots, &grid);
        fill_lists(&mut lists, grid.count());
        Ok(Tile {
            grid,
            spots,
            times: Vec::new(alloc),
            steps: Vec::new(alloc),
            lists,
            open: 0,
        })
    }

    /// Makes it a tile of other pixels, with as many samples a pixel, at which nothing shows, as `new` would: over the memory
    /// that it has, where that is enough. After `NoMemory` it is the tile that it was.
    pub fn renew(&mut self, rect: [u32; 4]) -> Result<(), NoMemory>
        requires { IsSampleGrid (grid_of rect self.old.grid.xs self.old.grid.ys) }
        ensures grid { OnOk result (self.new.grid ≡ grid_of rect self.old.grid.xs self.old.grid.ys) }
        ensures empty { OnOk result (Shows self.new (λ s. [])) }
        ensures refused { OnErr result (self.new ≡ self.old) }
    {
        let grid = grid_of(rect, self.grid.xs, self.grid.ys);
        let count = grid.count();
        self.spots.reserve(count.saturating_sub(self.spots.len()))?;
        self.lists.reserve(count.saturating_sub(self.lists.len()))?;
        fill_places(&mut self.spots, &grid);
        fill_lists(&mut self.lists, count);
        self.times.clear();
        self.steps.clear();
        self.grid = grid;
        self.open = 0;
        Ok(())
    }

    /// Works out the times of the samples, where they aren't known.
    fn time_samples(&mut self) -> Result<(), NoMemory>
        ensures { self.new ≡ self.old }
    {
        if self.times.len() == 0 {
            self.times.reserve(self.grid.count())?;
            fill_times(&mut self.times, &self.grid);
        }
        Ok(())
    }

    /// Does what `hide` does for cells that may move.
    fn hide_moving<C: Cells>(
        &mut self,
        cells: &C,
        camera: &Camera,
        one_sided: bool,
        flip: bool,
    ) -> Result<(), NoMemory>
        ensures grid { self.new.grid ≡ self.old.grid }
        ensures shows { OnOk result ((f : Sample → List Fragment) → Shows self.old f → Shows self.new (with_covering camera.now (micropolygons_of (C.values cells.now) one_sided flip) f)) }
    {
        self.time_samples()?;
        let places = Places {
            grid: self.grid,
            spots: self.spots.as_slice(),
            times: self.times.as_slice(),
        };
        find_steps(&mut self.steps, &places)?;
        let timed = TimedPlaces {
            places,
            steps: self.steps.as_slice(),
        };
        hide_all(&mut self.lists, &timed, cells, camera, one_sided, flip)?;
        Ok(())
    }

    /// Does what `hide` does for the cells of a grid that stays where it is.
    fn hide_grid_cells(
        &mut self,
        still: &GridCells<'_>,
        camera: &Camera,
        one_sided: bool,
        flip: bool,
    ) -> Result<(), NoMemory>
        ensures grid { self.new.grid ≡ self.old.grid }
        ensures shows { OnOk result ((f : Sample → List Fragment) → Shows self.old f → Shows self.new (with_covering camera.now (micropolygons_of (values_of still.now.smooth still.now.grid) one_sided flip) f)) }
    {
        let alloc = *self.lists.allocator();
        let places = Places {
            grid: self.grid,
            spots: self.spots.as_slice(),
            times: self.times.as_slice(),
        };
        hide_grid_cells(
            &mut self.lists,
            &places,
            alloc,
            still,
            camera,
            one_sided,
            flip,
        )?;
        Ok(())
    }

    /// Adds what the cells show, before the camera, at each sample: by depth, and behind what has an equal depth. Cells of one
    /// side are dropped where that is turned away, the other way round where they are flipped. After `NoMemory` the tile shows
    /// parts of them, and is only good to be dropped.
    pub fn hide<C: Cells>(
        &mut self,
        cells: &C,
        camera: &Camera,
        one_sided: bool,
        flip: bool,
    ) -> Result<(), NoMemory>
        ensures grid { self.new.grid ≡ self.old.grid }
        ensures shows { OnOk result ((f : Sample → List Fragment) → Shows self.old f → Shows self.new (with_covering camera.now (micropolygons_of (C.values cells.now) one_sided flip) f)) }
    {
        match cells.still_grid() {
            Some(still) => self.hide_grid_cells(&still, camera, one_sided, flip)?,
            None => self.hide_moving(cells, camera, one_sided, flip)?,
        }
        self.open = next_open(self.lists.as_slice(), self.open, self.grid.count());
        Ok(())
    }

    /// Adds what the cells of a grid show that a camera sees, as `hide` does: what is the same for all tiles is known before. Where
    /// it is `smooth`, colours and opacities vary over each of them.
    pub fn hide_seen(
        &mut self,
        seen: &SeenGrid<'_>,
        smooth: bool,
        one_sided: bool,
        flip: bool,
    ) -> Result<(), NoMemory>
        ensures grid { self.new.grid ≡ self.old.grid }
        ensures shows { OnOk result (ShowsSeen seen.now smooth one_sided flip self.old self.new) }
    {
        let places = Places {
            grid: self.grid,
            spots: self.spots.as_slice(),
            times: self.times.as_slice(),
        };
        hide_seen_grid(&mut self.lists, &places, seen, smooth, one_sided, flip)?;
        self.open = next_open(self.lists.as_slice(), self.open, self.grid.count());
        Ok(())
    }

    /// Whether at each sample an opaque fragment shows that is nearer than `z`.
    pub fn all_behind(&self, z: Num) -> bool
        ensures { (f : Sample → List Fragment) → Shows self.now f → IsTrue result ↔ BlocksAll z self.now.grid f }
    {
        all_block(self.lists.as_slice(), self.grid.count(), self.open, z)
    }

    /// The number of samples.
    pub fn samples(&self) -> usize
        ensures { result ≡ sample_count self.now.grid }
    {
        self.grid.count()
    }

    /// Where sample `n` lies on the raster, across and down, in 1/256 pixel: that of cell `n` modulo `k` of pixel `n` / `k` of
    /// the rectangle, where `k` is the number of samples a pixel, and pixels and cells go by rows.
    pub fn at(&self, n: usize) -> [i64; 2]
        requires { n < sample_count self.now.grid }
        ensures { let s = sample_of self.now.grid n in result ≡ s.place.x ∷ s.place.y ∷ [] }
    {
        let spot = self.spots[n];
        [spot.x(), spot.y()]
    }

    /// The colour of sample `n`: the composite of what shows there.
    pub fn colour(&self, n: usize) -> Vec3
        requires { n < sample_count self.now.grid }
        ensures { (f : Sample → List Fragment) → Shows self.now f → result ≡ composite (f (sample_of self.now.grid n)) }
    {
        self.lists[n].colour()
    }
}

/// The law of leaves: where a tile that showed all fragments of some micropolygons had a grid hidden in it, it shows those of
/// these and then of the grid's.
pub fn leaf_law(tile: &Tile, grid: &GridCells, camera: &Camera, one_sided: bool, flip: bool)
    ensures { let g = grid.now.grid in HidesGrid camera.now tile.now grid.now.smooth one_sided flip g.columns g.rows g.p.now g.ci.now g.oi.now }
{}

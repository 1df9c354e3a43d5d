// How a camera sees a grid.
ghost use Rattle.std.specs.Prelude.{◌≡◌, IfOk};
ghost use Rattle.hider.specs.Flat.{IsSeenBy};

use crate::flat_hiding::{fill_boxes, fill_points};
use crate::seen_grid::SeenGrid;
use bumpalo::Bump;
use bumpalo::collections::into_bump_slice;
use dice::GridRef;
use fixed_math::NoMemory;
use transforms::Camera;

impl<'a> SeenGrid<'a> {
    /// The grid as a camera sees it. What that takes lies in `arena`: what it took before memory ran out stays taken until it is
    /// reset.
    pub fn new(
        arena: &'a Bump,
        camera: &Camera,
        grid: GridRef<'a>,
    ) -> Result<SeenGrid<'a>, NoMemory>
        ensures grid { IfOk result (λ s. s.grid ≡ grid.entry) }
        ensures seen { IfOk result (IsSeenBy camera.now) }
    {
        let mut points = Vec::with_capacity(arena, grid.p.len())?;
        fill_points(&mut points, camera, grid.p)?;
        let mut boxes = Vec::with_capacity(arena, (grid.columns - 1) * (grid.rows - 1))?;
        fill_boxes(&mut boxes, &grid, points.as_slice())?;
        Ok(SeenGrid {
            grid,
            points: into_bump_slice(points),
            boxes: into_bump_slice(boxes),
        })
    }
}

//! The picture of a frame, drawn bucket by bucket: its primitives split, diced, shaded and hidden, its pixels filtered. A part of a
//! frame has some of its buckets.
#![tactic(auto)]

mod candidates;
mod frame;
mod frame_part;
mod leaf_use;
mod leaf_walk;
mod limits;
mod narrowing;
mod put_pixels;
mod row_band;
mod share;
mod shown;
mod sights;
mod tile_drawing;
mod walk_laws;

pub use frame::render_frame;
pub use frame_part::render_part;
pub use limits::{DrawFault, Limits, Report};
pub use moving_cells::MovingCells;
pub use walk_laws::{
    behind_law, frame_table_law, nothing_lost_law, one_epoch_law, passed_over_law, shadings_law,
    tile_samples_law, unmet_law,
};

//! Parts of a picture, drawn apart and joined.
//!
//! A part is a text: `REYPART1`, then six numbers of four bytes each with the high byte first (the picture's width and height, the
//! greatest number of a channel, the side of a bucket, the tag of the frame, and the count of the part's buckets), then for each of
//! its buckets, by ascending numbers, the number in four bytes and its pixels by rows.
#![tactic(auto)]

mod buckets;
mod fault;
mod header;
mod joined;
mod part;
mod placing;
mod ppm;
mod text;

pub use fault::JoinFault;
pub use header::Header;
pub use joined::join;
pub use text::{append_number, header_bytes};

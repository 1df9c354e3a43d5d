//! The renderer as one call: words and files in, pictures out.
#![tactic(auto)]

mod accepted;
mod laws;
mod load;
mod part_task;
mod program;
mod write;
mod write_parts;

pub use acceptance::{FaultCode, FileId, Refusal};
pub use accepted::{Accepted, accept};
pub use laws::stock_constant_law;
pub use load::fetch_text;
pub use program::{fault_note, missing_note, run};

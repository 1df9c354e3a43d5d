//! What the renderer asks of the outside: files by their names, a place for its frames, and one for its notes.
//!
//! Each of the three is a trait with a count of faults and an optional meaning. There are forms of them in memory,
//! which tell what they hold, and adapters to real files and writers, which tell nothing of content.
#![tactic(auto)]

mod calls;
mod file_library;
mod file_sink;
mod library;
mod memory_library;
mod memory_notes;
mod memory_sink;
mod notes;
mod put;
mod roles;
mod say;
mod sink;
mod stderr_notes;

pub use file_library::FileLibrary;
pub use file_sink::FileSink;
pub use fixed_math::NoMemory;
pub use library::{Failed, Fetch, Library};
pub use memory_library::MemoryLibrary;
pub use memory_notes::MemoryNotes;
pub use memory_sink::{Entry, MemorySink};
pub use notes::Notes;
pub use put::put_all;
pub use say::say_line;
pub use sink::FrameSink;
pub use stderr_notes::StderrNotes;

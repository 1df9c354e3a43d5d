//! The requests of a scene, by the table of requests (RenderMan Interface 3.2).
//!
//! A token list becomes a list of requests that fit their rows of the table, with each variable's class and kind settled
//! by the declarations before it, or the first fault with its line: exactly those that the definition in `specs/Reading`
//! gives.
#![tactic(auto)]

mod args;
mod arguments;
mod codes;
mod declarations;
mod declared;
mod entry;
mod faults;
mod follows;
mod groups;
mod later;
mod levels;
mod list_faults;
mod list_values;
mod listing;
mod names;
mod pairs;
mod req;
mod request;
mod rows;
mod rules;
mod scan;
mod scans;
mod table;
mod texts;
mod words;

pub use args::Arg;
pub use faults::{RibCode, RibFault};
pub use groups::requests;
pub use later::{holding, last_named};
pub use levels::Levels;
pub use req::Req;
pub use request::Request;
pub use scene::{Class, Kind, Param, Values};

//! Laws of the tokens and of the grammar of the Shading Language: which texts the parser accepts, that no two trees of the grammar are
//! spelled alike, and where the fault of a refused text stands. Each is the contract of a function that does nothing.
#![tactic(auto)]

mod laws;

pub use laws::{
    expressions_spelled_once, fault_stays, faults_placed, shaders_spelled_once, tokens_in_turn,
};

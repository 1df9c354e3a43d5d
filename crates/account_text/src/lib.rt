//! The account of a pixel as a JSON text.
#![tactic(auto)]

mod decimal;
mod fragments;
mod frame;
mod numbers;
mod pixel;
mod primitive;

pub use pixel::account_text;

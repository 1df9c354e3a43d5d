//! Tests of what only a call shows of shaders: operations on values, shaders at the points of grids, and the numbers of
//! docs/TOUR.md. What a text or a command's words can show is a case of `conformance`.
#![tactic(auto)]

#[cfg(test)]
mod compiled;
#[cfg(test)]
mod differences;
#[cfg(test)]
mod operations;
#[cfg(test)]
mod operations_in_spaces;
#[cfg(test)]
mod operations_on_numbers;
#[cfg(test)]
mod operations_on_triples;
#[cfg(test)]
mod shading;
#[cfg(test)]
mod sums;
#[cfg(test)]
mod tour;

//! Tests of what only a call shows: numbers, rows of them and texts, files, frames and notes in memory and those of the system, the
//! stock's names, tokens and requests, surfaces with their maps, splits and sample places, what moves, meshes and polygons, tiles of
//! samples, filters and levels, the joining of parts, and textures with their look-ups. What a text or a command's words can show is
//! a case of `conformance`.
#![tactic(auto)]

#[cfg(test)]
mod adapters;
#[cfg(test)]
mod files;
#[cfg(test)]
mod filters;
#[cfg(test)]
mod hiding;
#[cfg(test)]
mod joining;
#[cfg(test)]
mod lane_rows;
#[cfg(test)]
mod meshes;
#[cfg(test)]
mod motion;
#[cfg(test)]
mod numbers;
#[cfg(test)]
mod scene_text;
#[cfg(test)]
mod stock_texts;
#[cfg(test)]
mod surfaces;
pub mod texts;
#[cfg(test)]
mod textures;

//! Tests of what only a call shows of the program: the top call over a library or a sink that fails, as it draws a picture or a part
//! of one or joins parts, over texts too long for a case of `conformance`, and over all fronts of a text.
#![tactic(auto)]

#[cfg(test)]
mod drawing;
#[cfg(test)]
mod export;
#[cfg(test)]
mod farm;

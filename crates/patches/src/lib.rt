//! Parametric surfaces: points, derivatives, control nets and boxes at parameters that are whole numerators over 4096.
#![tactic(auto)]

mod bicubic;
mod bilinear;
mod blossoms;
mod boxes;
mod cubic;
mod curve;
mod mixing;
mod patch;
mod piece;
mod quadratic;
mod rational;
mod surface;

pub use bicubic::Bicubic;
pub use bilinear::Bilinear;
pub use cubic::Cubic;
pub use curve::{Coordinate, Curve, PolynomialCurve};
pub use patch::Patch;
pub use piece::{Dyadic, Piece};
pub use quadratic::{Quadratic, RationalCoordinate, RationalCurve};
pub use rational::factor_at;
pub use surface::Surface;

// Interpolation of polynomials in x and y over a finite field by Koetter's method, on fixed arrays: a basis
// of eight rows, each a polynomial with its weighted degree, is led through one condition after the other.
#![tactic(auto)]

pub mod basis;
pub mod conditions;
pub mod pivots;
pub mod places;
pub mod run;

pub use basis::{Basis, BasisRow};
pub use places::Place;
pub use run::{interpolant, interpolate};

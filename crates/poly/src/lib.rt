// Polynomials over a field, by their coefficients and through given points.
// A list of coefficients or of points counts as followed by zeros, so every call answers for lists
// of any lengths.
#![tactic(auto)]

mod arithmetic;
mod newton;
mod values;

pub use arithmetic::{difference, quotient};
pub use newton::{divided_differences, newton_value, one_polynomial};
pub use values::value;

// Polynomials in x and y in fixed arrays over a finite field, and the steps that interpolation and the
// search for roots are made of. A row holds the coefficients of one power of y, lowest power of x first.
#![tactic(auto)]

pub mod bounds;
pub mod combinations;
pub mod discrepancies;
pub mod flat;
pub mod roots;
pub mod shifts;
pub mod values;

pub use bounds::{Bounds, Polynomial, ROWS, Row, WIDTH};
pub use combinations::{
    multiply_polynomial, multiply_x_minus, subtract_multiple, subtract_polynomial, y_power,
    zero_polynomial,
};
pub use discrepancies::{Condition, discrepancy};
pub use flat::{NoRoom, WRITTEN, flatten};
pub use roots::{lower, starts_with_zeros, value_at_zero, vanishes_at};
pub use shifts::shifted;
pub use values::{ORDER, expansion, value};

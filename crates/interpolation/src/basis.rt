// The basis that interpolation works on: eight polynomials, each with its weighted degree.
ghost use Rattle.std.specs.Prelude.{◌≡◌};
ghost use Rattle.interpolation.specs.Bases.{start_row, start_of};
ghost use Rattle.interpolation.specs.Rows.{start_rows, start_degrees};

use bivariate::combinations::{y_power, zero_polynomial};
use bivariate::{Polynomial, ROWS};
use std::array;

// A polynomial with its weighted degree.
#[derive(Clone, Copy, Debug, PartialEq, Eq)]
pub struct BasisRow {
    pub polynomial: Polynomial,
    pub degree: usize,
}

pub type Basis = [BasisRow; ROWS];

// The power y^j, with its degree where y has the weight.
#[tactic(auto, unfolding(crate::specs::Bases::start_row))]
fn start_row(weight: usize, j: usize) -> BasisRow
    ensures { result ≡ start_row weight j }
{
    BasisRow {
        polynomial: y_power(j),
        degree: weight.saturating_mul(j),
    }
}

// The powers y^0 to y^7, with their degrees where y has the weight.
#[tactic(auto, unfolding(crate::specs::Bases::start_of, field::specs::Made::made))]
pub fn start(weight: usize) -> Basis
    ensures { result ≡ start_of weight }
{
    array::from_fn(|j| start_row(weight, j))
}

// The powers y^0 to y^7 alone.
#[tactic(auto, using(crate::proofs::BasisLists::powers_none, crate::proofs::BasisLists::powers_more, crate::proofs::BasisLists::powers_all))]
pub fn start_rows() -> [Polynomial; ROWS]
    ensures { result ≡ start_rows }
{
    let mut rows = [zero_polynomial(); ROWS];
    for (j, row) in rows.iter_mut().enumerate() {
        *row = y_power(j);
    }
    rows
}

// Their degrees alone, where y has the weight.
#[tactic(auto, unfolding(crate::specs::Rows::start_degrees, field::specs::Made::made))]
pub fn start_degrees(weight: usize) -> [usize; ROWS]
    ensures { result ≡ start_degrees weight }
{
    array::from_fn(|j| weight.saturating_mul(j))
}

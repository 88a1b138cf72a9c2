// What one condition does to the rows of a basis.
ghost use Rattle.std.specs.Prelude.{◌≡◌, ◌+◌, ◌<◌, slice_index, slice_set};
ghost use Rattle.interpolation.specs.Bases.{rows_of, degrees_of};
ghost use Rattle.interpolation.specs.Rows.{live_discrepancy_of, discrepancies_of, inverse_or_zero, cleared_row_of, cleared_of, raised_row_of, reduced_of};
ghost use Rattle.interpolation.specs.States.{Stepped};

use crate::basis::{Basis, BasisRow};
use crate::pivots::pivot;
use bivariate::combinations::{multiply_polynomial, subtract_polynomial};
use bivariate::discrepancies::discrepancy;
use bivariate::{Bounds, Condition, Polynomial, ROWS};
use field::Field;

// The discrepancy of a row whose degree is below the bound, and 0 for other rows.
#[tactic(auto, unfolding(crate::specs::Rows::live_discrepancy_of))]
fn live_discrepancy<F: Field>(
    field: &F,
    row: &BasisRow,
    bounds: Bounds,
    condition: Condition,
) -> u16
    ensures { result ≡ live_discrepancy_of (F.meaning field.now) row.now.polynomial row.now.degree bounds.l bounds.bound bounds.weight condition.a condition.b condition.u condition.r }
{
    if row.degree < bounds.bound {
        discrepancy(field, &row.polynomial, bounds, condition)
    } else {
        0
    }
}

// The discrepancies of the rows below l whose degree is below the bound, and 0 for other rows.
#[tactic(auto, using(crate::proofs::BasisLists::discrepant_none, crate::proofs::BasisLists::discrepant_more, crate::proofs::BasisLists::discrepant_all))]
pub fn discrepancies<F: Field>(
    field: &F,
    basis: &Basis,
    bounds: Bounds,
    condition: Condition,
) -> [u16; ROWS]
    ensures { result ≡ discrepancies_of (F.meaning field.now) (rows_of basis.now) (degrees_of basis.now) bounds.l bounds.bound bounds.weight condition.a condition.b condition.u condition.r }
{
    let mut result = [0; ROWS];
    for (j, row) in basis[..bounds.rows()].iter().enumerate() {
        result[j] = live_discrepancy(field, row, bounds, condition);
    }
    result
}

// The inverse of an element, and 0 where there is none.
#[tactic(auto, unfolding(crate::specs::Rows::inverse_or_zero))]
fn inverse_or_zero<F: Field>(field: &F, a: u16) -> u16
    ensures { result ≡ inverse_or_zero (F.meaning field.now) a }
{
    field.inverse(a).unwrap_or(0)
}

// Subtracts from the row the multiple of the source by the discrepancy times the factor, unless the discrepancy is 0.
#[tactic(auto, unfolding(crate::specs::Rows::cleared_row_of))]
fn clear_row<F: Field>(
    field: &F,
    row: &mut BasisRow,
    source: &Polynomial,
    discrepancy: u16,
    factor: u16,
    bounds: Bounds,
)
    ensures polynomial { row.new.polynomial ≡ cleared_row_of (F.meaning field.now) source.now factor bounds.l bounds.bound bounds.weight discrepancy row.old.polynomial }
    ensures degree { row.new.degree ≡ row.old.degree }
{
    if discrepancy != 0 {
        let multiple = field.product(discrepancy, factor);
        subtract_polynomial(field, &mut row.polynomial, source, multiple, bounds);
    }
}

// Clears each row whose discrepancy is not 0 by the source, whose discrepancy has the inverse factor.
#[tactic(auto, using(crate::proofs::BasisLists::eliminating_none, crate::proofs::BasisLists::eliminating_more, crate::proofs::BasisLists::eliminating_rows, crate::proofs::BasisLists::eliminating_degrees))]
pub fn eliminate<F: Field>(
    field: &F,
    basis: &mut Basis,
    source: &Polynomial,
    discrepancies: &[u16; ROWS],
    factor: u16,
    bounds: Bounds,
)
    ensures rows { rows_of basis.new ≡ cleared_of (F.meaning field.now) source.now factor bounds.l bounds.bound bounds.weight discrepancies.now (rows_of basis.old) }
    ensures degrees { degrees_of basis.new ≡ degrees_of basis.old }
{
    // By index into the discrepancies: of a zip over what is written the proof learns no element.
    for (j, row) in basis.iter_mut().enumerate() {
        clear_row(field, row, source, discrepancies[j], factor, bounds);
    }
}

// Multiplies the row by x − a. Its degree is raised in any case; the product is worked out where that is below the bound.
#[tactic(auto, unfolding(crate::specs::Rows::raised_row_of))]
fn raise<F: Field>(field: &F, row: &mut BasisRow, a: u16, bounds: Bounds)
    requires { row.old.degree < bounds.bound }
    ensures polynomial { row.new.polynomial ≡ raised_row_of (F.meaning field.now) (row.old.degree + 1) a bounds.l bounds.bound bounds.weight row.old.polynomial }
    ensures degree { row.new.degree ≡ row.old.degree + 1 }
{
    row.degree += 1;
    if row.degree < bounds.bound {
        multiply_polynomial(field, &mut row.polynomial, a, bounds);
    }
}

// Clears the other rows of their discrepancies by row p, and multiplies row p by x − a.
#[tactic(auto, using(crate::proofs::BasisLists::reduced_live, crate::proofs::BasisLists::reduced_rows, crate::proofs::BasisLists::reduced_degrees))]
fn reduce<F: Field>(
    field: &F,
    basis: &mut Basis,
    p: usize,
    discrepancies: &[u16; ROWS],
    a: u16,
    bounds: Bounds,
)
    requires inside { p < 8 }
    requires live { slice_index (degrees_of basis.old) p < bounds.bound }
    ensures rows { rows_of basis.new ≡ reduced_of (F.meaning field.now) p discrepancies.now (degrees_of basis.old) a bounds.l bounds.bound bounds.weight (rows_of basis.old) }
    ensures degrees { degrees_of basis.new ≡ slice_set (degrees_of basis.old) p (slice_index (degrees_of basis.old) p + 1) }
{
    let source = basis[p].polynomial;
    let factor = inverse_or_zero(field, discrepancies[p]);
    let mut others = *discrepancies;
    others[p] = 0;
    eliminate(field, basis, &source, &others, factor, bounds);
    raise(field, &mut basis[p], a, bounds);
}

// One step of the method: the condition that in q(a + x, b + y) the coefficient of x^r y^u be 0.
#[tactic(auto, using(crate::proofs::LiftedStep::step_some, crate::proofs::LiftedStep::step_none, crate::proofs::BasisLists::length_degrees, crate::proofs::Scanning::found_inside))]
pub fn step<F: Field>(field: &F, basis: &mut Basis, bounds: Bounds, condition: Condition)
    ensures { Stepped (F.meaning field.now) condition.a condition.b condition.u condition.r bounds.l bounds.bound bounds.weight (rows_of basis.old) (degrees_of basis.old) (rows_of basis.new) (degrees_of basis.new) }
{
    let failing = discrepancies(field, basis, bounds, condition);
    if let Some(p) = pivot(basis, &failing, bounds) {
        reduce(field, basis, p, &failing, condition.a, bounds);
    }
}

// Divisions by x, and values in y.
ghost use Rattle.std.specs.Prelude.{◌≡◌, ◌<◌, min, ◌==◌, slice_index};
ghost use Rattle.std.specs.List.{list_all};
ghost use Rattle.bivariate.specs.Roots.{column, all_zero, lower_row, lower_of, column_value_of};

use crate::bounds::{Bounds, Polynomial, Row, WIDTH};
use field::{Field, multiply_add};

// Whether the constant terms of the rows are all 0.
fn have_no_constant_terms(rows: &[Row]) -> bool
    ensures { result ≡ list_all (λ row. slice_index row 0 == 0) rows.now }
{
    rows.iter().all(|row| row[0] == 0)
}

// Whether the constant terms within the bounds are all 0.
#[tactic(auto, using(crate::proofs::Searching::zeros_of_rows))]
pub fn starts_with_zeros(q: &Polynomial, bounds: Bounds) -> bool
    ensures { result ≡ all_zero (column q.now 0) (min bounds.l 8) }
{
    have_no_constant_terms(&q[..bounds.rows()])
}

// Moves the row down one place: its constant term goes, and 0 comes in at the end.
#[tactic(auto, using(crate::proofs::Searching::lowered_is))]
fn lower_row(row: &mut Row)
    ensures { row.new ≡ lower_row row.old }
{
    row.rotate_left(1);
    row[WIDTH - 1] = 0;
}

// Moves each row down one place.
#[tactic(auto, using(crate::proofs::Writing::changing_none, crate::proofs::Writing::changing_more, crate::proofs::Writing::lowering_all))]
pub fn lower(q: &mut Polynomial)
    ensures { q.new ≡ lower_of q.old }
{
    for row in q.iter_mut() {
        lower_row(row);
    }
}

// The coefficient of x^i of q(x, g).
#[tactic(auto, using(crate::proofs::Searching::valuing_none, crate::proofs::Searching::valuing_more, crate::proofs::Searching::valuing_all))]
fn column_value<F: Field>(field: &F, q: &Polynomial, bounds: Bounds, g: u16, i: usize) -> u16
    requires { i < 256 }
    ensures { result ≡ column_value_of (F.meaning field.now) g bounds.l q.now i }
{
    let mut value = 0;
    for row in q[..bounds.rows()].iter().rev() {
        value = multiply_add(field, row[i], g, value);
    }
    value
}

// The value q(0, g).
pub fn value_at_zero<F: Field>(field: &F, q: &Polynomial, bounds: Bounds, g: u16) -> u16
    ensures { result ≡ column_value_of (F.meaning field.now) g bounds.l q.now 0 }
{
    column_value(field, q, bounds, g, 0)
}

// Whether the coefficient of x^i of q(x, g) is 0.
fn column_vanishes<F: Field>(field: &F, q: &Polynomial, bounds: Bounds, g: u16, i: usize) -> bool
    requires { i < 256 }
    ensures { result ≡ (column_value_of (F.meaning field.now) g bounds.l q.now i == 0) }
{
    column_value(field, q, bounds, g, i) == 0
}

// Whether the first coefficients of q(x, g), as many as the bound says, are all 0.
#[tactic(auto, using(crate::proofs::Searching::zeros_none, crate::proofs::Searching::zeros_more, crate::proofs::Searching::zeros_broken, crate::proofs::Searching::zeros_all))]
pub fn vanishes_at<F: Field>(field: &F, q: &Polynomial, bounds: Bounds, g: u16) -> bool
    ensures { result ≡ all_zero (column_value_of (F.meaning field.now) g bounds.l q.now) (min bounds.bound 256) }
{
    // A loop: tried with `all` over the range, whose closure calls the field, and the proof did not close.
    for i in 0..bounds.bound.min(WIDTH) {
        if !column_vanishes(field, q, bounds, g, i) {
            return false;
        }
    }
    true
}

// The substitution of g + x·y for y.
ghost use Rattle.std.specs.Prelude.{◌≡◌, ◌-◌, ◌<◌, min, if◌then◌else◌, nat_lt, slice_index};
ghost use Rattle.bivariate.specs.Roots.{shift_step_of, shift_of, raise_row, raise_of, shifted_of};

use crate::bounds::{Bounds, Polynomial, Row};
use crate::combinations::add_multiple;
use field::Field;

// Adds to each row from c on, but for the last within the bounds, g times the next row.
#[tactic(auto, using(crate::proofs::Searching::shifting_none, crate::proofs::Searching::shifting_more, crate::proofs::Searching::shifting_all))]
fn shift_rows<F: Field>(field: &F, q: &mut Polynomial, c: usize, bounds: Bounds, g: u16)
    ensures { q.new ≡ shift_step_of (F.meaning field.now) g bounds.l bounds.bound bounds.weight c q.old }
{
    // By index, since each row is written beside the next one, which is read.
    for r in c..bounds.rows().saturating_sub(1) {
        let next = q[r + 1];
        add_multiple(field, &mut q[r], &next, g, bounds.row_length(r + 1));
    }
}

// Expands the polynomial at y = g.
#[tactic(auto, using(crate::proofs::Searching::expanded_none, crate::proofs::Searching::expanded_more, crate::proofs::Searching::expanded_all))]
fn shift_in_y<F: Field>(field: &F, q: &mut Polynomial, bounds: Bounds, g: u16)
    ensures { q.new ≡ shift_of (F.meaning field.now) g bounds.l bounds.bound bounds.weight (min bounds.l 8) q.old }
{
    for c in (0..bounds.rows()).rev() {
        shift_rows(field, q, c, bounds, g);
    }
}

// What stands at i of the row moved up by c places.
fn raised(row: &Row, c: usize, i: usize) -> u16
    requires { i < 256 }
    ensures { result ≡ (if nat_lt i c then 0 else slice_index row.now (i - c)) }
{
    if i < c { 0 } else { row[i - c] }
}

// Moves the row up by c places, with zeros at its start.
#[tactic(auto, using(crate::proofs::Searching::raising_none, crate::proofs::Searching::raising_more, crate::proofs::Searching::raising_end))]
fn raise_row(row: &mut Row, c: usize)
    ensures { row.new ≡ raise_row c row.old }
{
    let old = *row;
    for (i, coefficient) in row.iter_mut().enumerate() {
        *coefficient = raised(&old, c, i);
    }
}

// Moves each row c up by c places.
#[tactic(auto, using(crate::proofs::Writing::changing_none, crate::proofs::Writing::changing_more, crate::proofs::Writing::raising_all))]
fn raise_rows(q: &mut Polynomial)
    ensures { q.new ≡ raise_of q.old }
{
    for (c, row) in q.iter_mut().enumerate() {
        raise_row(row, c);
    }
}

// The polynomial q(x, g + x·y), where row c of q has bound − c·weight coefficients and those from l on are 0.
#[tactic(auto, unfolding(crate::specs::Roots::shifted_of))]
pub fn shifted<F: Field>(field: &F, q: &Polynomial, bounds: Bounds, g: u16) -> Polynomial
    ensures { result ≡ shifted_of (F.meaning field.now) g bounds.l bounds.bound bounds.weight q.now }
{
    let mut result = *q;
    shift_in_y(field, &mut result, bounds, g);
    raise_rows(&mut result);
    result
}

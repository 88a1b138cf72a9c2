// Coefficients of the expansion of a polynomial at a point.
ghost use Rattle.std.specs.Prelude.{◌≡◌};
ghost use Rattle.bivariate.specs.Combinations.{term_within, terms_of, discrepancy_of};

use crate::bounds::{Bounds, Polynomial, ROWS};
use crate::values::{ORDER, coefficient};
use field::Field;
use std::array;

// The condition that in q(a + x, b + y) the coefficient of x^r y^u be 0.
#[derive(Clone, Copy, Debug, PartialEq, Eq)]
pub struct Condition {
    pub a: u16,
    pub b: u16,
    pub u: usize,
    pub r: usize,
}

// The coefficient of x^r of row c at a + x, and 0 for a row that is not worked on.
#[tactic(auto, using(crate::proofs::Writing::row_length_clipped), unfolding(crate::specs::Combinations::term_within))]
fn term<F: Field>(field: &F, q: &Polynomial, bounds: Bounds, a: u16, r: usize, c: usize) -> u16
    ensures { result ≡ term_within (F.meaning field.now) q.now bounds.l bounds.bound bounds.weight a r c }
{
    if c < bounds.rows() {
        coefficient(field, &q[c], bounds.row_length(c), a, r)
    } else {
        0
    }
}

// The coefficients of x^r of the rows at a + x, and 0 for the rows that are not worked on.
#[tactic(auto, unfolding(crate::specs::Combinations::terms_of, field::specs::Made::made))]
fn terms<F: Field>(field: &F, q: &Polynomial, bounds: Bounds, a: u16, r: usize) -> [u16; ROWS]
    ensures { result ≡ terms_of (F.meaning field.now) q.now bounds.l bounds.bound bounds.weight a r }
{
    array::from_fn(|c| term(field, q, bounds, a, r, c))
}

// The coefficient of x^r y^u of q(a + x, b + y), where row c of q has bound − c·weight coefficients and
// those from l on are not read; 0 where u or r is above 7.
#[tactic(auto, using(crate::proofs::Expansions::discrepancy_is, crate::proofs::Expansions::discrepancy_none))]
pub fn discrepancy<F: Field>(field: &F, q: &Polynomial, bounds: Bounds, condition: Condition) -> u16
    ensures { result ≡ discrepancy_of (F.meaning field.now) q.now bounds.l bounds.bound bounds.weight condition.a condition.b condition.u condition.r }
{
    // No row is expanded for a power of y that has no coefficient.
    if condition.u >= ORDER {
        return 0;
    }
    let terms = terms(field, q, bounds, condition.a, condition.r);
    coefficient(field, &terms, bounds.rows(), condition.b, condition.u)
}

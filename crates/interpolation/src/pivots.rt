// The choice of the row by which the others are cleared.
ghost use Rattle.std.specs.Prelude.{◌≡◌, not, ◌&&◌, ◌==◌, nat_lt};
ghost use Rattle.interpolation.specs.Bases.{degrees_of};
ghost use Rattle.interpolation.specs.Pivots.{Pivot};

use crate::basis::Basis;
use bivariate::{Bounds, ROWS};

// Whether a row is a better pivot than those so far: its degree is lower and its discrepancy is not 0.
fn better(degree: usize, least: usize, discrepancy: u16) -> bool
    ensures { result ≡ (nat_lt degree least && not (discrepancy == 0)) }
{
    degree < least && discrepancy != 0
}

// Among the rows j below l whose degree is below the bound and whose discrepancy is not 0 the one with the
// least degree, and the first of those.
pub fn pivot(basis: &Basis, discrepancies: &[u16; ROWS], bounds: Bounds) -> Option<usize>
    ensures { Pivot (degrees_of basis.now) discrepancies.now bounds.l bounds.bound result }
{
    // A loop: a chain (zip, enumerate, filter, min_by_key) takes its elements apart three times and is no plainer.
    let mut best = None;
    let mut least = bounds.bound;
    for (j, row) in basis[..bounds.rows()].iter().enumerate() {
        if better(row.degree, least, discrepancies[j]) {
            best = Some(j);
            least = row.degree;
        }
    }
    best
}

// Sums and multiples of rows and of polynomials.
ghost use Rattle.std.specs.Prelude.{◌≡◌, replicate, slice_set};
ghost use Rattle.bivariate.specs.Combinations.{plus_of, minus_of, times_of, minus_polynomial_of, times_polynomial_of, zero_of, y_power_of};

use crate::bounds::{Bounds, Polynomial, ROWS, Row, WIDTH};
use crate::values::multiply_x_plus;
use field::{Field, multiply_add};

// Adds the multiple of the source by the factor to the target, in the first len coefficients. Here and below len only bounds
// the work: it is worked out from the bounds of a polynomial for each row, and a row has its 256 coefficients whatever it is.
#[tactic(auto, using(crate::proofs::Parts::part_none, crate::proofs::Writing::plus_more, crate::proofs::Writing::plus_all))]
pub(crate) fn add_multiple<F: Field>(
    field: &F,
    target: &mut Row,
    source: &Row,
    factor: u16,
    len: usize,
)
    ensures { target.new ≡ plus_of (F.meaning field.now) factor len target.old source.now }
{
    // Tried with a zip of the target's part and the source: of a zip over what is written the proof learns no element.
    for (i, coefficient) in target[..len.min(WIDTH)].iter_mut().enumerate() {
        *coefficient = multiply_add(field, *coefficient, factor, source[i]);
    }
}

// Subtracts the multiple of the source by the factor from the target, in the first len coefficients.
#[tactic(auto, unfolding(crate::specs::Combinations::minus_of))]
pub fn subtract_multiple<F: Field>(
    field: &F,
    target: &mut Row,
    source: &Row,
    factor: u16,
    len: usize,
)
    ensures { target.new ≡ minus_of (F.meaning field.now) factor len target.old source.now }
{
    add_multiple(field, target, source, field.negative(factor), len);
}

// Subtracts the multiple of the source by the factor from the target, within the bounds.
#[tactic(auto, using(crate::proofs::Parts::part_none, crate::proofs::Writing::minus_more, crate::proofs::Writing::minus_all))]
pub fn subtract_polynomial<F: Field>(
    field: &F,
    target: &mut Polynomial,
    source: &Polynomial,
    factor: u16,
    bounds: Bounds,
)
    ensures { target.new ≡ minus_polynomial_of (F.meaning field.now) factor bounds.l bounds.bound bounds.weight target.old source.now }
{
    // As in add_multiple, a zip is not to be had.
    for (c, row) in target[..bounds.rows()].iter_mut().enumerate() {
        subtract_multiple(field, row, &source[c], factor, bounds.row_length(c));
    }
}

// Multiplies the row by x − a, as far as the first len coefficients of the product.
#[tactic(auto, unfolding(crate::specs::Combinations::times_of))]
pub fn multiply_x_minus<F: Field>(field: &F, row: &mut Row, a: u16, len: usize)
    ensures { row.new ≡ times_of (F.meaning field.now) a len row.old }
{
    multiply_x_plus(field, row, len, field.negative(a), 0);
}

// Multiplies the polynomial by x − a, within the bounds of the product. Its loop is that of the subtraction with another call
// in it; one function that takes the call as a closure over lent rows is no plainer.
#[tactic(auto, using(crate::proofs::Parts::part_none, crate::proofs::Writing::times_more, crate::proofs::Writing::times_all))]
pub fn multiply_polynomial<F: Field>(field: &F, q: &mut Polynomial, a: u16, bounds: Bounds)
    ensures { q.new ≡ times_polynomial_of (F.meaning field.now) a bounds.l bounds.bound bounds.weight q.old }
{
    for (c, row) in q[..bounds.rows()].iter_mut().enumerate() {
        multiply_x_minus(field, row, a, bounds.row_length(c));
    }
}

// The row of zeros.
fn zero_row() -> Row
    ensures { result ≡ replicate 256 0 }
{
    [0; WIDTH]
}

// The polynomial 0.
pub fn zero_polynomial() -> Polynomial
    ensures { result ≡ zero_of }
{
    [zero_row(); ROWS]
}

// Makes 1 the constant term of the row.
fn start_with_one(row: &mut Row)
    ensures { row.new ≡ slice_set row.old 0 1 }
{
    row[0] = 1;
}

// The polynomial y^j, and 0 from j = 8 on.
pub fn y_power(j: usize) -> Polynomial
    ensures { result ≡ y_power_of j }
{
    let mut q = zero_polynomial();
    if j < ROWS {
        start_with_one(&mut q[j]);
    }
    q
}

// Values and expansions of one row, and the products with x + a that expansions are made of.
ghost use Rattle.std.specs.Prelude.{◌≡◌, min};
ghost use Rattle.bivariate.specs.Horner.{entries, value_of, nested_of, expansion_of, coefficient_of};

use crate::bounds::{Row, WIDTH};
use field::{Field, multiply_add};

// How many coefficients of an expansion there are.
pub const ORDER: usize = 8;

// The value at a of the first len coefficients.
#[tactic(auto, using(crate::proofs::Steps::evaluating_none, crate::proofs::Steps::evaluating_more, crate::proofs::Steps::evaluating_all))]
pub fn value<F: Field>(field: &F, row: &Row, len: usize, a: u16) -> u16
    ensures { result ≡ value_of (F.meaning field.now) a (entries row.now) 0 (min len 256) }
{
    let mut value = 0;
    for c in row[..len.min(WIDTH)].iter().rev() {
        value = multiply_add(field, *c, a, value);
    }
    value
}

// Multiplies the first len coefficients by x + a and adds c, where what would come after them is dropped. With the
// coefficients of f(a + x) given, these become those of g(a + x), where g(x) = c + x·f(x).
#[tactic(auto, using(crate::proofs::Steps::nested_none, crate::proofs::Steps::nested_more, crate::proofs::Steps::nested_all))]
pub(crate) fn multiply_x_plus<F: Field, const N: usize>(
    field: &F,
    row: &mut [u16; N],
    len: usize,
    a: u16,
    c: u16,
)
    ensures { row.new ≡ nested_of N (F.meaning field.now) len a c row.old }
{
    let mut carry = c;
    for coefficient in row[..len.min(N)].iter_mut() {
        let old = *coefficient;
        *coefficient = multiply_add(field, carry, a, old);
        carry = old;
    }
}

// The first coefficients of f(a + x), as many as order says, where f has the first len coefficients of the row.
#[tactic(auto, using(crate::proofs::Steps::expanding_none, crate::proofs::Steps::expanding_more, crate::proofs::Steps::expanding_all))]
pub fn expansion<F: Field, const N: usize>(
    field: &F,
    row: &[u16; N],
    len: usize,
    a: u16,
    order: usize,
) -> [u16; ORDER]
    ensures { result ≡ expansion_of (F.meaning field.now) a (entries row.now) 0 (min len N) order }
{
    let mut h = [0; ORDER];
    for c in row[..len.min(N)].iter().rev() {
        multiply_x_plus(field, &mut h, order, a, *c);
    }
    h
}

// The coefficient of x^r of f(a + x), where f has the first len coefficients of the row; 0 from r = 8 on.
pub(crate) fn coefficient<F: Field, const N: usize>(
    field: &F,
    row: &[u16; N],
    len: usize,
    a: u16,
    r: usize,
) -> u16
    ensures { result ≡ coefficient_of (F.meaning field.now) a (entries row.now) (min len N) r }
{
    if r < ORDER {
        expansion(field, row, len, a, r + 1)[r]
    } else {
        0
    }
}

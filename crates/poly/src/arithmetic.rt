// Subtraction and division, which the trait of fields leaves to be put together.
ghost use Rattle.std.specs.Prelude.{◌≡◌, slice_index};
ghost use Rattle.poly.specs.Arithmetic.{difference_of, quotient_of};

use field::Field;

// a − b.
pub fn difference<F: Field>(field: &F, a: u16, b: u16) -> u16
    ensures { result ≡ difference_of (F.meaning field.now) a b }
{
    field.sum(a, field.negative(b))
}

// a / b, and 0 where b has no inverse.
pub fn quotient<F: Field>(field: &F, a: u16, b: u16) -> u16
    ensures { result ≡ quotient_of (F.meaning field.now) a b }
{
    field
        .inverse(b)
        .map_or(0, |inverse| field.product(a, inverse))
}

// A member of a list that counts as followed by zeros.
pub(crate) fn member(list: &[u16], i: usize) -> u16
    ensures { result ≡ slice_index list.now i }
{
    list.get(i).copied().unwrap_or(0)
}

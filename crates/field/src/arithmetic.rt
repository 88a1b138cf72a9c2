// Arithmetic that users of any field put together from the trait's methods.
ghost use Rattle.std.specs.Prelude.{◌≡◌};
ghost use Rattle.field.specs.Meaning.{sum_of, product_of};

use crate::Field;

// The sum a + b·c.
pub fn multiply_add<F: Field>(field: &F, a: u16, b: u16, c: u16) -> u16
    ensures { result ≡ sum_of (F.meaning field.now) a (product_of (F.meaning field.now) b c) }
{
    field.sum(a, field.product(b, c))
}

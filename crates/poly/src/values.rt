// The value of a polynomial that is given by its coefficients.
ghost use Rattle.std.specs.Prelude.{◌≡◌};
ghost use Rattle.poly.specs.Arithmetic.{affine_of};
ghost use Rattle.poly.specs.Polynomials.{value_of};

use field::{Field, multiply_add};

// By Horner's rule, from the highest coefficient down. The step says itself what it makes, so that a
// wrong one is refused at its own line.
pub fn value<F: Field>(field: &F, coefficients: &[u16], a: u16) -> u16
    ensures { result ≡ value_of (F.meaning field.now) coefficients.now a }
{
    let step = |v: u16, c: &u16| -> u16
        ensures { result ≡ affine_of (F.meaning field.entry.now) c.now a v }
    { multiply_add(field, *c, a, v) };
    coefficients.iter().rev().fold(0, step)
}

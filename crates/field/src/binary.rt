// The binary kind: polynomials over two elements modulo a polynomial of degree 2 to 8.
ghost use Rattle.std.specs.Prelude.{◌≡◌, ◌≤◌};
ghost use Rattle.field.specs.Binary.{modulus_of};

pub mod methods;

// The degree m with its modulus; `all` says whether every element is a letter or only 0 and 1 are.
#[derive(Clone, Copy, Debug, PartialEq, Eq)]
pub struct BinaryField {
    m: u8,
    polynomial: u16,
    all: bool,
    ghost above: { 2 ≤ m },
    ghost below: { m ≤ 8 },
    ghost listed: { polynomial ≡ modulus_of m },
}

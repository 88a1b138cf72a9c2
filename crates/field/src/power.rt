// Powers by repeated squaring and inverses by powers, one text for every kind of field.
ghost use Rattle.std.specs.Prelude.{◌≡◌, ℕ, ◌-◌, ◌<◌, ◌≤◌, ◌^◌, ◌&&◌, cond, nat_lt, Some, None};
ghost use Rattle.field.specs.Powers.{power};

// The power of a, under the product given, for an exponent of at most 8 bits.
fn raise<P: Fn(u16, u16) -> u16>(product: P, a: u16, exponent: u16) -> u16
    ghost times: { ℕ → ℕ → ℕ }
    requires callable { P.IsAlwaysCallable product }
    requires multiplies { (x y r : ℕ) → x < 2 ^ 16 → y < 2 ^ 16 → P.post product x y r → r ≡ times x y }
    requires short { exponent < 256 }
    ensures { result ≡ power times 8 1 a exponent }
{
    let mut result = 1;
    let mut base = a;
    let mut rest = exponent;
    while rest > 0 {
        if rest % 2 == 1 {
            result = product(result, base);
        }
        base = product(base, base);
        rest /= 2;
    }
    result
}

// The inverse of a in the field of this size: its power size − 2.
pub(crate) fn inverse<P: Fn(u16, u16) -> u16>(size: u16, product: P, a: u16) -> Option<u16>
    ghost times: { ℕ → ℕ → ℕ }
    requires callable { P.IsAlwaysCallable product }
    requires multiplies { (x y r : ℕ) → x < 2 ^ 16 → y < 2 ^ 16 → P.post product x y r → r ≡ times x y }
    requires short { (2 ≤ size) × (size ≤ 256) }
    ensures { result ≡ cond (nat_lt 0 a && nat_lt a size) (Some (power times 8 1 a (size - 2))) None }
{
    if 0 < a && a < size {
        Some(raise(product, a, size - 2))
    } else {
        None
    }
}

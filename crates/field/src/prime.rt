// The prime kind: arithmetic modulo a prime of 3 to 251.
ghost use Rattle.std.specs.Prelude.{◌≡◌, ℕ, ◌%◌, ◌<◌, ◌≤◌, ◌≢◌};

pub mod methods;

// A prime of the table; that it is one stands in the type.
#[derive(Clone, Copy, Debug, PartialEq, Eq)]
pub struct PrimeField {
    p: u8,
    ghost above: { 3 ≤ p },
    ghost below: { p ≤ 251 },
    ghost undivided: { (d : ℕ) → 2 ≤ d → d < p → p % d ≢ 0 },
}

// How a prime field is made, and what it answers.
ghost use Rattle.std.specs.Prelude.{◌≡◌, ℕ, ◌*◌, ◌%◌, ◌<◌, ◌≤◌, IfOk, ◌==◌, find};
ghost use Rattle.std.specs.Result.{result_err};
ghost use Rattle.fault.specs.First.{Judged};
ghost use Rattle.field.specs.Faults.{refusal_of, PrimeFails};
ghost use Rattle.field.specs.declared.refusal.FieldFault.TheVariants.{Characteristic};
ghost use Rattle.field.specs.Modular.{Prime, modular, times as times_modulo};
ghost use Rattle.std.proofs.Common.{mod-lt, arith, rules};
ghost use Rattle.field.specs.Modular;
ghost use Rattle.field.specs.PowersLemmas.{power_closed};
ghost use Rattle.field.specs.ModularLaws as modulo;
ghost use Rattle.field.specs.PrimeTable.{prime_listed, listed_inverse};

use crate::prime::PrimeField;
use crate::{Field, FieldFault, power};

// The odd primes below 256.
const PRIMES: [u8; 53] = [
    3, 5, 7, 11, 13, 17, 19, 23, 29, 31, 37, 41, 43, 47, 53, 59, 61, 67, 71, 73, 79, 83, 89, 97,
    101, 103, 107, 109, 113, 127, 131, 137, 139, 149, 151, 157, 163, 167, 173, 179, 181, 191, 193,
    197, 199, 211, 223, 227, 229, 233, 239, 241, 251,
];

// The entry of the table that equals p.
fn listed(p: usize) -> Option<u8>
    ensures { result ≡ find (λ q. q == p) PRIMES }
{
    PRIMES.iter().copied().find(|&q| usize::from(q) == p)
}

// The same, or a refusal: the table holds the primes of 3 to 251 and no other number.
fn entry(p: usize) -> Result<u8, FieldFault>
    ensures judged { Judged refusal_of (PrimeFails p) (result_err result) }
    ensures found { IfOk result (λ q. (q ≡ p) × (3 ≤ q) × (q ≤ 251) × Prime q) }
{
    listed(p).ok_or(FieldFault::Characteristic)
}

// The remainder of a number below 2p, with no division.
fn reduce(a: u16, p: u16) -> u16
    requires { a < 2 * p }
    ensures { result ≡ a % p }
{
    if a < p { a } else { a - p }
}

impl PrimeField {
    // The field of p elements, or a refusal where p is no prime of 3 to 251.
    pub fn new(p: usize) -> Result<PrimeField, FieldFault>
        ensures judged { Judged refusal_of (PrimeFails p) (result_err result) }
        ensures made { IfOk result (λ f. f.p ≡ p) }
    {
        Ok(PrimeField { p: entry(p)? })
    }

    // The prime, which has no divisor from 2 to p − 1.
    pub fn characteristic(&self) -> u16
        ensures value { result ≡ self.now.p }
        ensures prime { Prime result }
    {
        u16::from(self.p)
    }
}

impl Field for PrimeField {
    ghost meaning = { λ f. modular f.p };

    ghost bounds = { first_of (Prim.search rules, Prim.grind (arith, Self.row.coded.inj)) };

    ghost sum_closed = { first_of (Prim.search rules, Prim.grind (arith, Self.row.coded.inj)) };

    ghost negative_closed = { first_of (Prim.search rules, Prim.grind (arith, Self.row.coded.inj)) };

    ghost product_closed = { first_of (Prim.search rules, Prim.grind (arith, Self.row.coded.inj)) };

    ghost inverse_closed = { λ f a h n. power_closed (Modular.times f.p) f.p (λ b c _ _. mod-lt _ (omega (arith, f.above))) 8 1 a _ (omega (arith, f.above)) h };

    ghost sum_commutes = { first_of (Prim.search rules, Prim.grind (arith, Self.row.coded.inj)) };

    ghost sum_associates = { λ f a b c _ _ _. modulo.sum_associates f.p (omega (arith, f.above)) a b c };

    ghost sum_zero = { λ f a h. modulo.sum_zero f.p (omega (arith, f.above)) a h };

    ghost sum_negative = { λ f a h. modulo.sum_negative f.p (omega (arith, f.above)) a h };

    ghost product_commutes = { first_of (Prim.search rules, Prim.grind (arith, Self.row.coded.inj)) };

    ghost product_associates = { λ f a b c _ _ _. modulo.product_associates f.p (omega (arith, f.above)) a b c };

    ghost product_one = { λ f a h. modulo.product_one f.p (omega (arith, f.above)) a h };

    ghost product_distributes = { λ f a b c _ _ _. modulo.product_distributes f.p (omega (arith, f.above)) a b c };

    ghost product_inverse = { λ f a h n. listed_inverse f.p a (prime_listed f.p f.above f.below f.undivided) h n };

    fn size(&self) -> u16 {
        self.characteristic()
    }

    fn letters(&self) -> u16 {
        self.size()
    }

    fn sum(&self, a: u16, b: u16) -> u16 {
        let p = self.characteristic();
        if a < p && b < p { reduce(a + b, p) } else { 0 }
    }

    fn negative(&self, a: u16) -> u16 {
        let p = self.characteristic();
        if a < p { reduce(p - a, p) } else { 0 }
    }

    fn product(&self, a: u16, b: u16) -> u16 {
        let p = self.characteristic();
        if a < p && b < p {
            (u32::from(a) * u32::from(b) % u32::from(p)) as u16
        } else {
            0
        }
    }

    #[tactic(auto, using(crate::proofs::Inverses::prime_by_power))]
    fn inverse(&self, a: u16) -> Option<u16> {
        power::inverse(self.size(), |x, y| self.product(x, y), a)
    }
}

// How a binary field is made, and what it answers.
ghost use Rattle.std.specs.Prelude.{◌≡◌, ℕ, ◌^◌, ◌<◌, ◌≤◌, Bool, true, false, ◌&&◌, IfOk, if◌then◌else◌, Some, None, MatchOption};
ghost use Rattle.std.specs.Result.{result_err};
ghost use Rattle.fault.specs.First.{Judged};
ghost use Rattle.field.specs.Binary.{binary, doubled, modulus_of, Irreducible, times as times_modulo};
ghost use Rattle.field.specs.Faults.{refusal_of, BinaryFails};
ghost use Rattle.field.specs.declared.refusal.FieldFault.TheVariants.{Degree};
ghost use Rattle.field.specs.Meaning.{product_of};
ghost use Rattle.std.proofs.Common.{arith, rules};
ghost use Rattle.field.specs.BinaryLaws as laws;
ghost use Rattle.std.proofs.lemmas.Nat.{xor_lt, xor_comm};
ghost use Rattle.std.specs.Int.Bits.{xor_assoc, xor_zero_r, xor_self};
ghost use Rattle.field.specs.Polynomials.{times_right};

use crate::binary::BinaryField;
use crate::{Field, FieldFault, power};

// The moduli for the degrees 2 to 8.
const MODULI: [u16; 7] = [7, 11, 19, 37, 67, 131, 285];

// The number as a degree, if it is one of 2 to 8.
fn degree_of(m: usize) -> Result<u8, FieldFault>
    ensures judged { Judged refusal_of (BinaryFails m) (result_err result) }
    ensures found { IfOk result (λ d. (d ≡ m) × (2 ≤ d) × (d ≤ 8)) }
{
    if (2..=8).contains(&m) {
        Ok(m as u8)
    } else {
        Err(FieldFault::Degree)
    }
}

impl BinaryField {
    // The field of degree m with all its elements or only two as letters, or a refusal where m is not 2 to 8.
    pub fn new(m: usize, all: bool) -> Result<BinaryField, FieldFault>
        ensures judged { Judged refusal_of (BinaryFails m) (result_err result) }
        ensures made { IfOk result (λ f. (f.m ≡ m) × (f.all ≡ all)) }
    {
        let m = degree_of(m)?;
        Ok(BinaryField {
            m,
            polynomial: MODULI[usize::from(m) - 2],
            all,
        })
    }

    pub fn degree(&self) -> u16
        ensures { result ≡ self.now.m }
    {
        u16::from(self.m)
    }

    pub fn modulus(&self) -> u16
        ensures { result ≡ modulus_of self.now.m }
    {
        self.polynomial
    }

    // The modulus is no product of two polynomials of lower degree. It computes nothing: its promise is the theorem.
    pub fn modulus_is_irreducible(&self)
        ensures { Irreducible self.now.m (modulus_of self.now.m) }
    {}

    // Twice an element, that is the element times x, reduced once.
    fn double(&self, a: u16) -> u16
        requires { a < 2 ^ self.now.m }
        ensures { result ≡ doubled (modulus_of self.now.m) self.now.m a }
    {
        let twice = a * 2;
        if (twice >> self.degree()) % 2 == 1 {
            twice ^ self.modulus()
        } else {
            twice
        }
    }

    // The product of two elements, by Horner's rule over the bits of b, reducing at every step.
    fn multiply(&self, a: u16, b: u16) -> u16
        requires { (a < 2 ^ self.now.m) × (b < 2 ^ self.now.m) }
        ensures { result ≡ times_modulo self.now.m a b }
    {
        let mut product = 0u16;
        for i in (0..self.degree()).rev() {
            let term = if (b >> i) % 2 == 1 { a } else { 0 };
            product = self.double(product) ^ term;
        }
        product
    }
}

impl Field for BinaryField {
    ghost meaning = { λ f. binary f.m f.all };

    ghost bounds = { λ f.
        let go : (all : Bool) → (2 ≤ (if all then 2 ^ f.m else 2)) × ((if all then 2 ^ f.m else 2) ≤ 2 ^ f.m) × (2 ^ f.m ≤ 256) =
        elim [
          | true ↦ (omega (arith, laws.four_elements f.m f.above f.below), omega arith, laws.few_elements f.m f.above f.below)
          | false ↦ (omega arith, omega (arith, laws.four_elements f.m f.above f.below), laws.few_elements f.m f.above f.below)
        ]
        in
        go f.all };

    ghost sum_closed = { λ f a b h k. xor_lt f.m a b h k };

    ghost negative_closed = { first_of (Prim.search rules, Prim.grind (arith, Self.row.coded.inj)) };

    ghost product_closed = { λ f a b h k. laws.closed f.m f.above f.below a b h k };

    ghost inverse_closed = { λ f a h n. laws.inverse_closed f.m f.above f.below a h };

    ghost sum_commutes = { λ f a b _ _. xor_comm a b };

    ghost sum_associates = { λ f a b c _ _ _. xor_assoc a b c };

    ghost sum_zero = { λ f a _. xor_zero_r a };

    ghost sum_negative = { λ f a _. xor_self a };

    ghost product_commutes = { λ f a b h k. laws.commutes f.m f.above f.below a b h k };

    ghost product_associates = { λ f a b c h k l. laws.associates f.m f.above f.below a b c h k l };

    ghost product_one = { λ f a h. laws.one f.m f.above f.below a h };

    ghost product_distributes = { λ f a b c _ _ _. times_right f.m a b c };

    ghost product_inverse = { λ f a h n. laws.inverse_right f.m f.above f.below a h n };

    fn size(&self) -> u16 {
        1u16 << self.degree()
    }

    fn letters(&self) -> u16 {
        if self.all { self.size() } else { 2 }
    }

    fn sum(&self, a: u16, b: u16) -> u16 {
        let size = self.size();
        if a < size && b < size { a ^ b } else { 0 }
    }

    fn negative(&self, a: u16) -> u16 {
        if a < self.size() { a } else { 0 }
    }

    fn product(&self, a: u16, b: u16) -> u16 {
        let size = self.size();
        if a < size && b < size {
            self.multiply(a, b)
        } else {
            0
        }
    }

    #[tactic(auto, using(crate::proofs::Inverses::binary_by_power))]
    fn inverse(&self, a: u16) -> Option<u16> {
        power::inverse(self.size(), |x, y| self.product(x, y), a)
    }
}

// Finite fields of at most 256 elements behind one interface: the trait says what a field means and
// which laws it keeps, and the two kinds, prime and binary, are proved to keep them.
#![tactic(auto)]

ghost use Rattle.std.specs.Prelude.{◌≡◌, ℕ, ◌<◌, ◌≤◌, ◌≢◌};
ghost use Rattle.field.specs.Meaning.{Meaning, Element, Letter, sum_of, negative_of, product_of, inverse_of};

pub mod arithmetic;
pub mod binary;
pub mod letter;
mod power;
pub mod prime;
pub mod refusal;

pub use arithmetic::multiply_add;
pub use binary::BinaryField;
pub use letter::{is_letter, laws_hold};
pub use prime::PrimeField;
pub use refusal::FieldFault;

// A field by its meaning. Every method answers for every 16-bit number, and none changes the field.
pub trait Field {
    ghost meaning: { Self → Meaning };

    fn size(&self) -> u16
        ensures { result ≡ (meaning self.now).size };

    fn letters(&self) -> u16
        ensures { result ≡ (meaning self.now).letters };

    fn sum(&self, a: u16, b: u16) -> u16
        ensures { result ≡ sum_of (meaning self.now) a b };

    fn negative(&self, a: u16) -> u16
        ensures { result ≡ negative_of (meaning self.now) a };

    fn product(&self, a: u16, b: u16) -> u16
        ensures { result ≡ product_of (meaning self.now) a b };

    fn inverse(&self, a: u16) -> Option<u16>
        ensures { result ≡ inverse_of (meaning self.now) a };

    ghost bounds: { (f : Self) → (2 ≤ (meaning f).letters) × ((meaning f).letters ≤ (meaning f).size) × ((meaning f).size ≤ 256) };

    ghost sum_closed: { (f : Self) (a b : ℕ) → Element (meaning f) a → Element (meaning f) b → Element (meaning f) ((meaning f).sum a b) };

    ghost negative_closed: { (f : Self) (a : ℕ) → Element (meaning f) a → Element (meaning f) ((meaning f).negative a) };

    ghost product_closed: { (f : Self) (a b : ℕ) → Element (meaning f) a → Element (meaning f) b → Element (meaning f) ((meaning f).product a b) };

    ghost inverse_closed: { (f : Self) (a : ℕ) → Element (meaning f) a → (a ≢ 0) → Element (meaning f) ((meaning f).inverse a) };

    ghost sum_commutes: { (f : Self) (a b : ℕ) → Element (meaning f) a → Element (meaning f) b → (meaning f).sum a b ≡ (meaning f).sum b a };

    ghost sum_associates: { (f : Self) (a b c : ℕ) → Element (meaning f) a → Element (meaning f) b → Element (meaning f) c → (meaning f).sum ((meaning f).sum a b) c ≡ (meaning f).sum a ((meaning f).sum b c) };

    ghost sum_zero: { (f : Self) (a : ℕ) → Element (meaning f) a → (meaning f).sum a 0 ≡ a };

    ghost sum_negative: { (f : Self) (a : ℕ) → Element (meaning f) a → (meaning f).sum a ((meaning f).negative a) ≡ 0 };

    ghost product_commutes: { (f : Self) (a b : ℕ) → Element (meaning f) a → Element (meaning f) b → (meaning f).product a b ≡ (meaning f).product b a };

    ghost product_associates: { (f : Self) (a b c : ℕ) → Element (meaning f) a → Element (meaning f) b → Element (meaning f) c → (meaning f).product ((meaning f).product a b) c ≡ (meaning f).product a ((meaning f).product b c) };

    ghost product_one: { (f : Self) (a : ℕ) → Element (meaning f) a → (meaning f).product 1 a ≡ a };

    ghost product_distributes: { (f : Self) (a b c : ℕ) → Element (meaning f) a → Element (meaning f) b → Element (meaning f) c → (meaning f).product a ((meaning f).sum b c) ≡ (meaning f).sum ((meaning f).product a b) ((meaning f).product a c) };

    ghost product_inverse: { (f : Self) (a : ℕ) → Element (meaning f) a → (a ≢ 0) → (meaning f).product a ((meaning f).inverse a) ≡ 1 };
}

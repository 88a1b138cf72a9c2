// What the trials of the code share: all words as the digits of a number, and the word that a polynomial gives, by nothing
// but the field's sums and products, so that no result comes from the crates that are tried.
#![tactic(auto)]

ghost use Rattle.std.specs.Prelude.{min, ◌≡◌, ℕ, ◌<◌, All, Decides, length, slice_index};
ghost use Rattle.trial.specs.Words.{digit, digits_of, count_of, value_of, letter_of};

mod case;

pub use case::{made, numbers};
use field::Field;

// The digits of a number in a base, lowest first: every list of so many digits comes once as the number rises. A base below
// 2 is read as 2.
pub fn digits<const N: usize>(number: u64, base: u16) -> [u16; N]
    ensures many { length result ≡ N }
    ensures each { (i : ℕ) → i < N → slice_index result i ≡ digit number base i }
{
    let base = u64::from(base.max(2));
    let mut rest = number;
    let mut all = [0u16; N];
    for place in all.iter_mut() {
        *place = (rest % base) as u16;
        rest /= base;
    }
    all
}

// How many lists of n digits there are, and 2^64 - 1 where there are more.
pub fn count(base: u16, n: usize) -> u64
    ensures { result ≡ count_of base n }
{
    let mut all = 1u64;
    for _ in 0..n {
        all = all.saturating_mul(u64::from(base));
    }
    all
}

// The value at a of the polynomial with these coefficients, lowest first.
pub fn value<F: Field>(field: &F, coefficients: &[u16], a: u16) -> u16
    ensures { result ≡ value_of (F.meaning field.now) coefficients.now a }
{
    coefficients
        .iter()
        .rev()
        .fold(0, |sum, c| field.sum(field.product(sum, a), *c))
}

// Letter i of the word that a polynomial gives, 0 where the word has no such letter.
fn letter<F: Field>(
    field: &F,
    support: &[u16],
    multipliers: &[u16],
    coefficients: &[u16],
    i: usize,
) -> u16
    ensures { result ≡ letter_of (F.meaning field.now) support.now multipliers.now coefficients.now i }
{
    match (support.get(i), multipliers.get(i)) {
        (Some(x), Some(y)) => field.product(*y, value(field, coefficients, *x)),
        _ => 0,
    }
}

// The word that a polynomial gives, with zeros after it. Letters go by number, since the support and the multipliers may be
// shorter than the word.
pub fn evaluation<F: Field, const N: usize>(
    field: &F,
    support: &[u16],
    multipliers: &[u16],
    coefficients: &[u16],
) -> [u16; N]
    ensures many { length result ≡ N }
    ensures each { (i : ℕ) → i < N → slice_index result i ≡ letter_of (F.meaning field.now) support.now multipliers.now coefficients.now i }
{
    let mut word = [0u16; N];
    for (i, place) in word.iter_mut().enumerate() {
        *place = letter(field, support, multipliers, coefficients, i);
    }
    word
}

// The word that the polynomial of a number gives: its first k coefficients are digits of the number, one for each element.
pub fn word_of<F: Field, const N: usize>(
    field: &F,
    support: &[u16],
    multipliers: &[u16],
    k: usize,
    number: u64,
) -> [u16; N]
    ensures many { length result ≡ N }
    ensures each { (i : ℕ) → i < N → slice_index result i ≡ letter_of (F.meaning field.now) support.now multipliers.now (digits_of (min k N) number (F.meaning field.now).size) i }
{
    let coefficients: [u16; N] = digits(number, field.size());
    evaluation(field, support, multipliers, &coefficients[..k.min(N)])
}

// Whether all numbers are letters of the field.
pub fn is_word<F: Field>(field: &F, word: &[u16]) -> bool
    ensures { Decides result (All (λ c. c < (F.meaning field.now).letters) word.now) }
{
    word.iter().all(|c| *c < field.letters())
}

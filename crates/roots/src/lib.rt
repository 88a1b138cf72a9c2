// The roots f(x) in y of a polynomial in x and y over a finite field, found coefficient by coefficient: f = g + x·h, where
// g is a root of q(0, y) and h one of q(x, g + x·y). Before each step q is divided by x as long as x divides it.
#![tactic(auto)]

pub mod search;

pub use search::{MAX_ROOTS, Roots, WORD_LENGTH, Word, roots};

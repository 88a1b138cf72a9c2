// A field of either kind, as one type.
pub mod methods;

use field::{BinaryField, PrimeField};

#[derive(Clone, Copy, Debug, PartialEq, Eq)]
pub enum AnyField {
    Prime(PrimeField),
    Binary(BinaryField),
}

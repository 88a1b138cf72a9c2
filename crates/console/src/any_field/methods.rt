// What a field of either kind answers: what the field of its kind does.
ghost use Rattle.console.specs.Kinds.{meaning_in};
ghost use Rattle.console.specs.declared.any_field.AnyField.TheVariants.{Prime, Binary};
ghost use Rattle.field.specs.contracts.prime.methods.PrimeFieldField.TheImpl.Laws as prime;
ghost use Rattle.field.specs.contracts.binary.methods.BinaryFieldField.TheImpl.Laws as binary;

use crate::AnyField;
use field::Field;

impl Field for AnyField {
    ghost meaning = { meaning_in };

    ghost bounds = { elim [ Prime f ↦ prime.bounds-law f | Binary f ↦ binary.bounds-law f ] };

    ghost sum_closed = { elim [ Prime f ↦ prime.sum_closed-law f | Binary f ↦ binary.sum_closed-law f ] };

    ghost negative_closed = { elim [ Prime f ↦ prime.negative_closed-law f | Binary f ↦ binary.negative_closed-law f ] };

    ghost product_closed = { elim [ Prime f ↦ prime.product_closed-law f | Binary f ↦ binary.product_closed-law f ] };

    ghost inverse_closed = { elim [ Prime f ↦ prime.inverse_closed-law f | Binary f ↦ binary.inverse_closed-law f ] };

    ghost sum_commutes = { elim [ Prime f ↦ prime.sum_commutes-law f | Binary f ↦ binary.sum_commutes-law f ] };

    ghost sum_associates = { elim [ Prime f ↦ prime.sum_associates-law f | Binary f ↦ binary.sum_associates-law f ] };

    ghost sum_zero = { elim [ Prime f ↦ prime.sum_zero-law f | Binary f ↦ binary.sum_zero-law f ] };

    ghost sum_negative = { elim [ Prime f ↦ prime.sum_negative-law f | Binary f ↦ binary.sum_negative-law f ] };

    ghost product_commutes = { elim [ Prime f ↦ prime.product_commutes-law f | Binary f ↦ binary.product_commutes-law f ] };

    ghost product_associates = { elim [ Prime f ↦ prime.product_associates-law f | Binary f ↦ binary.product_associates-law f ] };

    ghost product_one = { elim [ Prime f ↦ prime.product_one-law f | Binary f ↦ binary.product_one-law f ] };

    ghost product_distributes = { elim [ Prime f ↦ prime.product_distributes-law f | Binary f ↦ binary.product_distributes-law f ] };

    ghost product_inverse = { elim [ Prime f ↦ prime.product_inverse-law f | Binary f ↦ binary.product_inverse-law f ] };

    fn size(&self) -> u16 {
        match self {
            AnyField::Prime(field) => field.size(),
            AnyField::Binary(field) => field.size(),
        }
    }

    fn letters(&self) -> u16 {
        match self {
            AnyField::Prime(field) => field.letters(),
            AnyField::Binary(field) => field.letters(),
        }
    }

    fn sum(&self, a: u16, b: u16) -> u16 {
        match self {
            AnyField::Prime(field) => field.sum(a, b),
            AnyField::Binary(field) => field.sum(a, b),
        }
    }

    fn negative(&self, a: u16) -> u16 {
        match self {
            AnyField::Prime(field) => field.negative(a),
            AnyField::Binary(field) => field.negative(a),
        }
    }

    fn product(&self, a: u16, b: u16) -> u16 {
        match self {
            AnyField::Prime(field) => field.product(a, b),
            AnyField::Binary(field) => field.product(a, b),
        }
    }

    fn inverse(&self, a: u16) -> Option<u16> {
        match self {
            AnyField::Prime(field) => field.inverse(a),
            AnyField::Binary(field) => field.inverse(a),
        }
    }
}

// What every user of a field asks of it, whatever its kind.
ghost use Rattle.std.specs.Prelude.{◌≡◌, Decides};
ghost use Rattle.algebra.specs.Operations.{Lawful};
ghost use Rattle.field.specs.Meaning.{Letter, operations};

use crate::Field;

// Whether a is a letter of the field.
pub fn is_letter<F: Field>(field: &F, a: u16) -> bool
    ensures { Decides result (Letter (F.meaning field.now) a) }
{
    a < field.size() && a < field.letters()
}

// The laws of any field, gathered as the algebra takes them. It computes nothing: its promise is the theorem.
pub fn laws_hold<F: Field>(field: &F)
    ensures { Lawful (operations (F.meaning field.now)) }
{}

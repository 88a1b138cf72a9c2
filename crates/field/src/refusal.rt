// The refusals of the makers of fields.
ghost use Rattle.std.specs.Prelude.{◌≡◌};
ghost use Rattle.field.specs.Faults.{refusal_of};

use fault::{Layer, Refusal};

// What is wrong with the number from which a field was to be made.
#[derive(Clone, Copy, Debug, PartialEq, Eq)]
pub enum FieldFault {
    Degree,
    Characteristic,
}

impl From<FieldFault> for Refusal {
    ghost from_gives = { λ fault refusal. refusal ≡ refusal_of fault };

    fn from(fault: FieldFault) -> Refusal {
        let number = match fault {
            FieldFault::Degree => 1,
            FieldFault::Characteristic => 2,
        };
        Refusal {
            number,
            layer: Layer::Field,
            place: 0,
        }
    }
}

impl FieldFault {
    // The refusal that every layer shows, for callers that name it.
    pub fn refusal(self) -> Refusal
        ensures { result ≡ refusal_of self }
    {
        Refusal::from(self)
    }
}

// Refusals: what every layer of the receiver answers where it cannot do what it was asked.
// A refusal is a number, the layer that gives it, and the place at fault (0 where none is named).
#![tactic(auto)]

ghost use Rattle.std.specs.Prelude.{◌≡◌, codes, Some};
ghost use Rattle.fault.specs.Refusals.{name_of, shown_as};

use std::fmt;

// The layers in which refusals arise.
#[derive(Clone, Copy, Debug, PartialEq, Eq)]
pub enum Layer {
    Field,
    Plan,
    Code,
    Log,
    Hall,
}

// A refusal as every layer shows it to its callers.
#[derive(Clone, Copy, Debug, PartialEq, Eq)]
pub struct Refusal {
    pub number: u8,
    pub layer: Layer,
    pub place: usize,
}

impl Layer {
    pub fn name(self) -> &'static str
        ensures { result.now ≡ name_of self }
    {
        match self {
            Layer::Field => "field",
            Layer::Plan => "plan",
            Layer::Code => "code",
            Layer::Log => "log",
            Layer::Hall => "hall",
        }
    }
}

impl fmt::Display for Layer {
    ghost output = { λ x. Some (name_of x) };

    fn fmt<W: fmt::Write>(&self, f: &mut fmt::Formatter<W>) -> fmt::Result {
        f.write_str(self.name())
    }
}

impl fmt::Display for Refusal {
    ghost output = { λ x. shown_as x };

    fn fmt<W: fmt::Write>(&self, f: &mut fmt::Formatter<W>) -> fmt::Result {
        write!(f, "refused {} {} {}", self.number, self.layer, self.place)
    }
}

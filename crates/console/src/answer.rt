// What the console answers, and how it is written.
ghost use Rattle.std.specs.Prelude.{◌≡◌};
ghost use Rattle.console.specs.Text.{answer_text, trouble_text};
ghost use Rattle.console.specs.declared.answer.Trouble.TheVariants.{Number, Memory};

use crate::word::Word;
use crate::words::Words;
use fault::Refusal;
use std::alloc::{AllocError, AllocFailed};
use std::fmt;
use std::num::ParseIntError;

// The answer to a command.
#[derive(Clone, Copy, Debug)]
pub enum Answer {
    Field { size: u16, letters: u16 },
    Sum(u16),
    Negative(u16),
    Product(u16),
    Inverse(Option<u16>),
    PlanMade,
    Check(bool),
    Write(Word),
    List(Words),
    Refused(Refusal),
}

// Why a line is no command that can be carried out.
#[derive(Clone, Copy, Debug, PartialEq, Eq)]
pub enum Trouble {
    Unknown,
    Number,
    NoField,
    Memory,
}

impl fmt::Display for Answer {
    ghost output = { λ x. answer_text x };

    fn fmt<W: fmt::Write>(&self, f: &mut fmt::Formatter<W>) -> fmt::Result {
        match self {
            Answer::Field { size, letters } => write!(f, "field {size} {letters}"),
            Answer::Sum(r) => write!(f, "sum {r}"),
            Answer::Negative(r) => write!(f, "negative {r}"),
            Answer::Product(r) => write!(f, "product {r}"),
            Answer::Inverse(Some(r)) => write!(f, "inverse {r}"),
            Answer::Inverse(None) => write!(f, "inverse none"),
            Answer::PlanMade => write!(f, "plan made"),
            Answer::Check(true) => write!(f, "check yes"),
            Answer::Check(false) => write!(f, "check no"),
            Answer::Write(word) => write!(f, "write{word}"),
            Answer::List(words) => {
                let count = words.count();
                let tested = words.tested();
                write!(f, "list {count} {tested}{words}")
            }
            Answer::Refused(refusal) => write!(f, "{refusal}"),
        }
    }
}

impl fmt::Display for Trouble {
    ghost output = { λ x. trouble_text x };

    fn fmt<W: fmt::Write>(&self, f: &mut fmt::Formatter<W>) -> fmt::Result {
        match self {
            Trouble::Unknown => write!(f, "no such command"),
            Trouble::Number => write!(f, "not a number of the range expected"),
            Trouble::NoField => write!(f, "no field is chosen"),
            Trouble::Memory => write!(f, "out of memory"),
        }
    }
}

impl From<ParseIntError> for Trouble {
    ghost from_gives = { λ _ t. t ≡ Number };

    fn from(_: ParseIntError) -> Self {
        Self::Number
    }
}

impl From<AllocError> for Trouble {
    ghost from_gives = { λ _ t. t ≡ Memory };

    fn from(_: AllocError) -> Trouble {
        Trouble::Memory
    }
}

impl<T: Drop> From<AllocFailed<T>> for Trouble {
    ghost from_gives = { λ _ t. t ≡ Memory };

    fn from(_: AllocFailed<T>) -> Trouble {
        Trouble::Memory
    }
}

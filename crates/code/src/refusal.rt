// Why the layer of codes refuses. One list of faults serves all its calls, so that a caller above
// has one type to hand on.
ghost use Rattle.std.specs.Prelude.{◌≡◌};
ghost use Rattle.code.specs.Faults.{refusal_of};
ghost use Rattle.code.specs.declared.refusal.CodeFault.TheVariants.{Workspace};

use bivariate::NoRoom;
use fault::{Layer, Refusal};

// Shape is a word length outside what a plan can have; it is the plan's refusal, named here for
// calls that take the length alone.
#[derive(Clone, Copy, Debug, PartialEq, Eq)]
pub enum CodeFault {
    Field,
    Shape,
    Length,
    Letter(usize),
    Content,
    Room,
    Workspace,
}

impl From<NoRoom> for CodeFault {
    ghost from_gives = { λ _ fault. fault ≡ Workspace };

    fn from(_: NoRoom) -> CodeFault {
        Self::Workspace
    }
}

impl From<CodeFault> for Refusal {
    ghost from_gives = { λ fault refusal. refusal ≡ refusal_of fault };

    fn from(fault: CodeFault) -> Refusal {
        let (number, layer, place) = match fault {
            CodeFault::Field => (20, Layer::Code, 0),
            CodeFault::Shape => (3, Layer::Plan, 0),
            CodeFault::Length => (10, Layer::Code, 0),
            CodeFault::Letter(i) => (11, Layer::Code, i),
            CodeFault::Content => (12, Layer::Code, 0),
            CodeFault::Room => (13, Layer::Code, 0),
            CodeFault::Workspace => (14, Layer::Code, 0),
        };
        Refusal {
            number,
            layer,
            place,
        }
    }
}

impl CodeFault {
    // The refusal that every layer shows, for callers that name it.
    pub fn refusal(self) -> Refusal
        ensures { result ≡ refusal_of self }
    {
        Refusal::from(self)
    }
}

// What a plan is asked for by, and the faults for which it is refused.
ghost use Rattle.std.specs.Prelude.{◌≡◌};
ghost use Rattle.plan.specs.Faults.{refusal_of};

use fault::{Layer, Refusal};

// The numbers of a plan as a caller asks for them, not yet checked.
#[derive(Clone, Copy, Debug, PartialEq, Eq)]
pub struct Parameters {
    pub size: usize,
    pub n: usize,
    pub t: usize,
    pub w: usize,
    pub k: usize,
    pub l: usize,
}

// Why no plan is made, in the order in which the conditions are tried.
#[derive(Clone, Copy, Debug, PartialEq, Eq)]
pub enum PlanFault {
    Shape,
    Distance,
    Errors,
    Width,
    Inequality,
    Support(usize),
    Multiplier(usize),
}

impl From<PlanFault> for Refusal {
    ghost from_gives = { λ fault refusal. refusal ≡ refusal_of fault };

    fn from(fault: PlanFault) -> Refusal {
        let (number, place) = match fault {
            PlanFault::Shape => (3, 0),
            PlanFault::Distance => (4, 0),
            PlanFault::Errors => (5, 0),
            PlanFault::Width => (6, 0),
            PlanFault::Inequality => (7, 0),
            PlanFault::Support(i) => (8, i),
            PlanFault::Multiplier(i) => (9, i),
        };
        Refusal {
            number,
            layer: Layer::Plan,
            place,
        }
    }
}

impl PlanFault {
    // The refusal that every layer shows, for callers that name it.
    pub fn refusal(self) -> Refusal
        ensures { result ≡ refusal_of self }
    {
        Refusal::from(self)
    }
}
